ghost use Rattle.std.specs.Prelude.{◌≡◌, ◌<◌, ◌≤◌, ◌↔◌, ◌⊎◌, length, IsTrue, IfErr, IfOk, MatchResult};
ghost use Rattle.file_text.specs.Node.{Node, tree_of};
ghost use Rattle.file_text.specs.Grammar.{IsText};
ghost use Rattle.file_text.specs.Values.{HasCharacters};
ghost use Rattle.file_text.specs.Fault.{FirstFault, Stands, LeavesDeclaration};
ghost use Rattle.file_text.specs.inside.Exits.{IsStop, FaultAt, BehindQuote};
ghost use Rattle.file_text.specs.declared.error.TextError.TheVariants.{NoMemory};

use crate::scanner::Scanner;
use crate::taken::Taken;
use crate::{Construct, TextError, Tree};
use std::alloc::Global;

/// Reads a graph file's text, in one pass. Cost: linear in the bytes, but for the names of the attributes of a
/// tag, each of which is looked for among those before it at the cost of the logarithm of their count.
pub fn read_tree(alloc: Global, bytes: &[u8]) -> Result<Tree, TextError>
    ensures spelled { IfOk result (λ tree. IsText (tree_of tree.root) bytes.now) }
    ensures only { (e : Node) → IsText e bytes.now → MatchResult result (λ tree. tree_of tree.root ≡ e) (λ error. error ≡ NoMemory) }
    ensures fault { IfErr result (λ error. (error ≡ NoMemory) ⊎ FirstFault bytes.now error) }
    ensures characters { IfOk result (λ tree. HasCharacters (tree_of tree.root)) }
{
    let mut scanner = Scanner::new(alloc);
    let mut i = 0;
    while i < bytes.len() {
        let passed = scanner.pass(alloc, &bytes[i..])?;
        if passed > 0 {
            i += passed;
        } else {
            match scanner.take(alloc, bytes[i])? {
                Taken::Goes => i += 1,
                stop => return Err(fault_of(bytes, i, stop)),
            }
        }
    }
    match scanner.finish() {
        Some(root) => Ok(Tree { root }),
        None => Err(fault_at(bytes, bytes.len())),
    }
}

/// The fault of bytes along which the scanner stops at byte n.
fn fault_of(bytes: &[u8], n: usize, stop: Taken) -> TextError
    requires { IsStop bytes.now n stop }
    ensures { FirstFault bytes.now result }
{
    match stop {
        Taken::Goes => unreachable!(),
        Taken::Leaves => fault_at(bytes, n),
        Taken::TooDeep => TextError::TooDeep {
            place: n as u64 - 1,
        },
        Taken::OtherEncoding => TextError::Unsupported {
            place: value_start(bytes, n, bytes[n]),
            what: Construct::Encoding,
        },
    }
}

/// The fault that the bytes show where they leave the grammar at n.
fn fault_at(bytes: &[u8], n: usize) -> TextError
    ensures { FaultAt bytes.now n result }
{
    if n >= 2 && stands(bytes, n - 2, b"<!DOCTYPE") {
        unsupported(n - 2, Construct::Doctype)
    } else if n >= 2 && stands(bytes, n - 2, b"<![CDATA[") {
        unsupported(n - 2, Construct::Cdata)
    } else if n >= 1 && stands(bytes, n - 1, b"&#") {
        unsupported(n - 1, Construct::Reference)
    } else if n >= 1 && stands(bytes, n - 1, b"<?") {
        unsupported(n - 1, Construct::Instruction)
    } else if leaves_declaration(bytes, 0, n) {
        unsupported(0, Construct::Instruction)
    } else if stands(bytes, 0, b"\xEF\xBB\xBF") && leaves_declaration(bytes, 3, n) {
        unsupported(3, Construct::Instruction)
    } else {
        TextError::Syntax { place: n as u64 }
    }
}

fn unsupported(place: usize, what: Construct) -> TextError
    ensures { result ≡ TextError.Unsupported place what }
{
    TextError::Unsupported {
        place: place as u64,
        what,
    }
}

/// Whether the word stands at the place.
fn stands(bytes: &[u8], place: usize, word: &[u8]) -> bool
    ensures { IsTrue result ↔ Stands word.now bytes.now place }
{
    bytes[place.min(bytes.len())..].starts_with(word)
}

/// Whether a beginning of `<?xml` stands from the place to n, with a byte behind it.
fn leaves_declaration(bytes: &[u8], place: usize, n: usize) -> bool
    requires { place < 4 }
    ensures { IsTrue result ↔ LeavesDeclaration bytes.now place n }
{
    place + 2 <= n
        && n <= place + 5
        && n < bytes.len()
        && stands(bytes, place, &b"<?xml"[..n - place])
}

/// The place behind the last quote before `end`.
fn value_start(bytes: &[u8], end: usize, quote: u8) -> u64
    requires { end ≤ length bytes.now }
    ensures { BehindQuote bytes.now end quote result }
{
    let mut place = end;
    while place > 0 && bytes[place - 1] != quote {
        place -= 1;
    }
    place as u64
}
