//! Elements as texts, piece by piece.

ghost use Rattle.std.specs.Prelude.{◌≡◌, ◌++◌, OnOk, codes};
ghost use Rattle.gen_graph.specs.NodeTexts.{attribute_text, escaped, escaped_byte, inside_text};
ghost use Rattle.gen_graph.specs.GraphTrees.{attribute};

use std::alloc::AllocError;

/// Puts a text at the end.
pub(crate) fn put(text: &mut Vec<u8>, piece: &str) -> Result<(), AllocError>
    ensures { OnOk result (text.new.items ≡ text.old.items ++ piece.now) }
{
    text.extend_from_slice(piece.as_bytes())
}

/// Begins the tag of an element.
pub(crate) fn put_tag(text: &mut Vec<u8>, word: &str) -> Result<(), AllocError>
    ensures { OnOk result (text.new.items ≡ text.old.items ++ (codes "<" ++ word.now)) }
{
    put(text, "<")?;
    put(text, word)
}

#[tactic(auto, unfolding(crate::specs::NodeTexts::attribute_text))]
pub(crate) fn put_attribute(text: &mut Vec<u8>, name: &str, value: &str) -> Result<(), AllocError>
    ensures { OnOk result (text.new.items ≡ text.old.items ++ attribute_text (attribute name.now value.now)) }
{
    put(text, " ")?;
    put(text, name)?;
    put(text, "='")?;
    put_escaped(text, value)?;
    put(text, "'")
}

fn put_escaped(text: &mut Vec<u8>, value: &str) -> Result<(), AllocError>
    ensures { OnOk result (text.new.items ≡ text.old.items ++ escaped value.now) }
{
    for byte in value.as_bytes() {
        put_byte(text, *byte)?;
    }
    Ok(())
}

#[tactic(auto, unfolding(crate::specs::NodeTexts::escaped_byte))]
fn put_byte(text: &mut Vec<u8>, byte: u8) -> Result<(), AllocError>
    ensures { OnOk result (text.new.items ≡ text.old.items ++ escaped_byte byte) }
{
    match byte {
        b'&' => put(text, "&amp;"),
        b'<' => put(text, "&lt;"),
        b'>' => put(text, "&gt;"),
        b'"' => put(text, "&quot;"),
        b'\'' => put(text, "&apos;"),
        _ => {
            text.push(byte)?;
            Ok(())
        }
    }
}

/// Ends the tag of an element, and puts what stands in the element and its end tag, if something does.
#[tactic(auto, unfolding(crate::specs::NodeTexts::inside_text))]
pub(crate) fn put_inside(text: &mut Vec<u8>, name: &str, inside: &[u8]) -> Result<(), AllocError>
    ensures { OnOk result (text.new.items ≡ text.old.items ++ inside_text name.now inside.now) }
{
    if inside.is_empty() {
        return put(text, "/>\n");
    }
    put(text, ">\n")?;
    text.extend_from_slice(inside)?;
    put(text, "</")?;
    put(text, name)?;
    put(text, ">\n")
}
