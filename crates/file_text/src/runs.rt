//! Runs of characters, each of which is passed in one step.

ghost use Rattle.std.specs.Prelude.{◌≡◌, ◌≤◌, ◌++◌, length, true, take, Some, IfOk, OnOk};
ghost use Rattle.file_text.specs.inside.Machine.{run};
ghost use Rattle.file_text.specs.inside.Seen.{state_of};

use crate::characters::{Run, body_len, run_len, same_len};
use crate::due::Due;
use crate::mode::{Comment, Mode};
use crate::reference::{Reference, Referred, entity_len};
use crate::scanner::Scanner;
use std::alloc::{AllocError, Global};

/// Adds bytes, of which there are often none.
#[inline(always)]
fn take_in(taken: &mut Vec<u8>, bytes: &[u8]) -> Result<(), AllocError>
    ensures { OnOk result (taken.new.items ≡ taken.old.items ++ bytes.now) }
{
    if bytes.is_empty() {
        return Ok(());
    }
    taken.extend_from_slice(bytes)
}

impl Scanner {
    /// Passes the characters in front that go on with a comment, a text, a value, a name, an entity or white, and says how many
    /// bytes they are.
    #[inline(always)]
    pub(crate) fn pass(&mut self, alloc: Global, bytes: &[u8]) -> Result<usize, AllocError>
        ensures within { IfOk result (λ n. n ≤ length bytes.now) }
        ensures same { IfOk result (λ n. run true (Some (state_of self.old)) (take n bytes.now) ≡ Some (state_of self.new)) }
    {
        match self.due {
            Due::Nothing => self.pass_characters(alloc, bytes),
            Due::Byte { .. } => Ok(0),
        }
    }

    /// The same between two characters.
    #[inline(always)]
    fn pass_characters(&mut self, alloc: Global, bytes: &[u8]) -> Result<usize, AllocError>
        requires { self.old.due ≡ Due.Nothing }
        ensures within { IfOk result (λ n. n ≤ length bytes.now) }
        ensures same { IfOk result (λ n. run true (Some (state_of self.old)) (take n bytes.now) ≡ Some (state_of self.new)) }
    {
        match self.mode {
            Mode::Comment(comment) => Ok(self.pass_comment(comment, bytes)),
            Mode::Between => self.pass_between(alloc, bytes),
            Mode::Value => self.pass_value(bytes),
            Mode::Gap => self.pass_gap(alloc, bytes),
            Mode::Naming => self.pass_name(bytes),
            Mode::Attribute => self.pass_attribute(bytes),
            Mode::Closing(matched) => Ok(self.pass_closing(matched, bytes)),
            Mode::TextReference(read) => Ok(self.pass_text_reference(read, bytes)),
            Mode::ValueReference(read) => self.pass_value_reference(read, bytes),
            _ => Ok(self.white_len(bytes)),
        }
    }

    /// Passes what goes on with the body of a comment.
    fn pass_comment(&mut self, comment: Comment, bytes: &[u8]) -> usize
        requires due { self.old.due ≡ Due.Nothing }
        requires mode { self.old.mode ≡ Mode.Comment comment }
        ensures within { result ≤ length bytes.now }
        ensures same { run true (Some (state_of self.old)) (take result bytes.now) ≡ Some (state_of self.new) }
    {
        if matches!(comment, Comment::Bang | Comment::Dash) {
            return 0;
        }
        let (count, place) = body_len(comment, bytes);
        self.mode = Mode::Comment(place);
        count
    }

    /// Passes what goes on between tags, or a whole tag.
    #[inline(always)]
    fn pass_between(&mut self, alloc: Global, bytes: &[u8]) -> Result<usize, AllocError>
        requires due { self.old.due ≡ Due.Nothing }
        requires mode { self.old.mode ≡ Mode.Between }
        ensures within { IfOk result (λ n. n ≤ length bytes.now) }
        ensures same { IfOk result (λ n. run true (Some (state_of self.old)) (take n bytes.now) ≡ Some (state_of self.new)) }
    {
        if bytes.len() > 1 && bytes[0] == b'<' && !self.frames.is_empty() {
            self.pass_tag(alloc, bytes)
        } else {
            Ok(self.text_len(bytes))
        }
    }

    /// How many bytes of a text stand in front; outside the root, of white.
    fn text_len(&self, bytes: &[u8]) -> usize
        requires due { self.now.due ≡ Due.Nothing }
        requires mode { self.now.mode ≡ Mode.Between }
        ensures within { result ≤ length bytes.now }
        ensures same { run true (Some (state_of self.now)) (take result bytes.now) ≡ Some (state_of self.now) }
    {
        if self.frames.is_empty() {
            run_len(Run::White, bytes)
        } else {
            run_len(Run::Text, bytes)
        }
    }

    /// Takes what goes on with a value into it.
    fn pass_value(&mut self, bytes: &[u8]) -> Result<usize, AllocError>
        requires due { self.old.due ≡ Due.Nothing }
        requires mode { self.old.mode ≡ Mode.Value }
        ensures within { IfOk result (λ n. n ≤ length bytes.now) }
        ensures same { IfOk result (λ n. run true (Some (state_of self.old)) (take n bytes.now) ≡ Some (state_of self.new)) }
    {
        let quote = self.tag.quote;
        let count = run_len(Run::Value { quote }, bytes);
        take_in(&mut self.tag.value, &bytes[..count])?;
        Ok(count)
    }

    /// Takes what goes on with the name of an element into it.
    fn pass_name(&mut self, bytes: &[u8]) -> Result<usize, AllocError>
        requires due { self.old.due ≡ Due.Nothing }
        requires mode { self.old.mode ≡ Mode.Naming }
        ensures within { IfOk result (λ n. n ≤ length bytes.now) }
        ensures same { IfOk result (λ n. run true (Some (state_of self.old)) (take n bytes.now) ≡ Some (state_of self.new)) }
    {
        let count = run_len(Run::Name, bytes);
        take_in(&mut self.tag.name, &bytes[..count])?;
        Ok(count)
    }

    /// Takes what goes on with the name of an attribute into it.
    fn pass_attribute(&mut self, bytes: &[u8]) -> Result<usize, AllocError>
        requires due { self.old.due ≡ Due.Nothing }
        requires mode { self.old.mode ≡ Mode.Attribute }
        ensures within { IfOk result (λ n. n ≤ length bytes.now) }
        ensures same { IfOk result (λ n. run true (Some (state_of self.old)) (take n bytes.now) ≡ Some (state_of self.new)) }
    {
        let count = run_len(Run::Name, bytes);
        take_in(&mut self.tag.attribute, &bytes[..count])?;
        Ok(count)
    }

    /// Passes what goes on with an end tag: the rest of the name, or white behind it.
    fn pass_closing(&mut self, matched: usize, bytes: &[u8]) -> usize
        requires due { self.old.due ≡ Due.Nothing }
        requires mode { self.old.mode ≡ Mode.Closing matched }
        ensures within { result ≤ length bytes.now }
        ensures same { run true (Some (state_of self.old)) (take result bytes.now) ≡ Some (state_of self.new) }
    {
        let name = self.innermost_name();
        if matched >= name.len() {
            return run_len(Run::White, bytes);
        }
        let same = same_len(&name[matched..], bytes);
        let count = run_len(Run::Name, &bytes[..same]);
        self.mode = Mode::Closing(matched + count);
        count
    }

    /// Passes what goes on with an entity between tags.
    fn pass_text_reference(&mut self, read: Reference, bytes: &[u8]) -> usize
        requires due { self.old.due ≡ Due.Nothing }
        requires mode { self.old.mode ≡ Mode.TextReference read }
        ensures within { result ≤ length bytes.now }
        ensures same { run true (Some (state_of self.old)) (take result bytes.now) ≡ Some (state_of self.new) }
    {
        let (count, made) = entity_len(read, bytes);
        match made {
            Referred::More(more) => {
                self.mode = Mode::TextReference(more);
                count
            }
            Referred::Done(_) => {
                self.mode = Mode::Between;
                count
            }
            Referred::Leaves => unreachable!(),
        }
    }

    /// Passes what goes on with an entity in a value, and takes its character into the value.
    fn pass_value_reference(&mut self, read: Reference, bytes: &[u8]) -> Result<usize, AllocError>
        requires due { self.old.due ≡ Due.Nothing }
        requires mode { self.old.mode ≡ Mode.ValueReference read }
        ensures within { IfOk result (λ n. n ≤ length bytes.now) }
        ensures same { IfOk result (λ n. run true (Some (state_of self.old)) (take n bytes.now) ≡ Some (state_of self.new)) }
    {
        let (count, made) = entity_len(read, bytes);
        match made {
            Referred::More(more) => {
                self.mode = Mode::ValueReference(more);
                Ok(count)
            }
            Referred::Done(c) => {
                self.tag.value.push(c)?;
                self.mode = Mode::Value;
                Ok(count)
            }
            Referred::Leaves => unreachable!(),
        }
    }

    /// How much white stands in front where it changes nothing.
    #[inline(always)]
    fn white_len(&self, bytes: &[u8]) -> usize
        requires { self.now.due ≡ Due.Nothing }
        ensures within { result ≤ length bytes.now }
        ensures same { run true (Some (state_of self.now)) (take result bytes.now) ≡ Some (state_of self.now) }
    {
        match self.mode {
            Mode::Gap | Mode::Named | Mode::Equals => run_len(Run::White, bytes),
            _ => 0,
        }
    }
}
