//! Numbers: white, digits, white; and lists of them.

ghost use Rattle.std.specs.Prelude.{◌≡◌, ◌<◌, ◌≤◌, ◌+◌, ◌==◌, ◌++◌, ◌∷◌, [], ℕ, List, length, map, min, replicate, nat_lt, take, drop, IfOk, OnOk, Ok, Err};
ghost use Rattle.std.specs.List.{fold, take_while, list_any, list_all};
ghost use Rattle.std.specs.Char.{is_ascii_digit};
ghost use Rattle.std.specs.Option.{option_map};
ghost use Rattle.file_text.specs.Grammar.{is_white};
ghost use Rattle.graph_reader.specs.TreeSteps.{Gives};
ghost use Rattle.sd_base.specs.declared.limits.TheConstants.{PHASES};
ghost use Rattle.sd_base.specs.declared.limits.Quantity.TheVariants.{Phases};
ghost use Rattle.graph_reader.specs.declared.numbers.Item.{Item};
ghost use Rattle.graph_reader.specs.NumberTexts.{drop_while, value, number_in, within, number, positive, item_in, items_in, count_in, numbers_of, tested_items, number_list, numbers};
ghost use Rattle.graph_reader.specs.inside.Capped.{capped};

use crate::error::bad_number;
use crate::{Field, ReadError};
use sd_base::limits::PHASES;
use sd_base::{Kind, Quantity, Rows};
use std::alloc::{AllocError, Global};

/// A number from here on is far above each limit, so it stays here, however many digits follow.
const GREATEST: u64 = 1_000_000_000_000_000;

fn is_white(byte: u8) -> bool
    ensures { result ≡ is_white byte }
{
    byte == b' ' || (byte == b'\t' || (byte == b'\n' || byte == b'\r'))
}

fn without_white(text: &[u8]) -> &[u8]
    ensures { result.now ≡ drop_while is_white text.now }
{
    let mut left = text;
    while let [first, rest @ ..] = left {
        if !is_white(*first) {
            return left;
        }
        left = rest;
    }
    left
}

fn digit_count(text: &[u8]) -> usize
    ensures count { result ≡ length (take_while is_ascii_digit text.now) }
    ensures within { result ≤ length text.now }
{
    text.iter().take_while(|byte| byte.is_ascii_digit()).count()
}

/// The digits in front, and what stands after them.
#[tactic(auto, using(crate::proofs::NumberDigits::take_while_cut, crate::proofs::NumberDigits::drop_while_cut))]
fn split_digits(text: &[u8]) -> (&[u8], &[u8])
    ensures digits { result.0.now ≡ take_while is_ascii_digit text.now }
    ensures rest { result.1.now ≡ drop_while is_ascii_digit text.now }
{
    text.split_at(digit_count(text))
}

/// The number that digits spell, or the greatest one.
fn value(digits: &[u8]) -> u64
    ensures { result ≡ min (value digits.now) GREATEST }
{
    let mut n: u64 = 0;
    for digit in digits {
        n = (n * 10 + u64::from(digit.saturating_sub(b'0'))).min(GREATEST);
    }
    n
}

#[tactic(auto, unfolding(crate::specs::NumberTexts::number_in))]
fn number_in(text: &[u8]) -> Option<u64>
    ensures { result ≡ option_map (λ n. min n GREATEST) (number_in text.now) }
{
    let (digits, rest) = split_digits(without_white(text));
    if digits.len() > 0 && without_white(rest).len() == 0 {
        Some(value(digits))
    } else {
        None
    }
}

/// Whether a number or a count is within its limit.
#[tactic(auto, unfolding(crate::specs::NumberTexts::within))]
pub fn within(what: Quantity, limit: u64, n: u64) -> Result<u64, ReadError>
    ensures gives { Gives (λ m. m) result (within what limit n) }
    ensures few { OnOk result (n ≤ limit) }
{
    if limit < n {
        return Err(ReadError::Limit { what });
    }
    Ok(n)
}

/// What a number means: the refusal of one that isn't well formed names the field and what that is of, the refusal of one above
/// the limit the quantity.
#[derive(Clone, Copy)]
pub(crate) struct Meaning<'a> {
    pub what: Field,
    pub of: &'a str,
    pub quantity: Quantity,
    pub limit: u64,
}

/// A number within a limit.
#[tactic(auto, unfolding(crate::specs::NumberTexts::number))]
pub fn number(alloc: Global, text: &str, meaning: &Meaning<'_>) -> Result<u64, ReadError>
    requires { meaning.now.limit < GREATEST }
    ensures { let m = meaning.now in Gives (λ n. n) result (number m.what m.of.now m.quantity m.limit text.now) }
{
    match number_in(text.as_bytes()) {
        Some(n) => within(meaning.quantity, meaning.limit, n),
        None => Err(bad_number(alloc, meaning.what, meaning.of)),
    }
}

/// A number within a limit that isn't 0.
#[tactic(auto, unfolding(crate::specs::NumberTexts::positive))]
pub(crate) fn positive(alloc: Global, text: &str, meaning: &Meaning<'_>) -> Result<u64, ReadError>
    requires { meaning.now.limit < GREATEST }
    ensures { let m = meaning.now in Gives (λ n. n) result (positive m.what m.of.now m.quantity m.limit text.now) }
{
    let n = number(alloc, text, meaning)?;
    if n == 0 {
        return Err(bad_number(alloc, meaning.what, meaning.of));
    }
    Ok(n)
}

/// So many times a number, in a list.
#[derive(Clone, Copy)]
pub struct Item {
    pub count: u64,
    pub value: u64,
}

/// The item of a text: a number, or so many times one, with a star between.
#[tactic(auto, unfolding(crate::specs::NumberTexts::item_in))]
fn item_in(text: &str) -> Option<Item>
    ensures { result ≡ option_map capped (item_in text.now) }
{
    let Some((count, value)) = text.split_once('*') else {
        let value = number_in(text.as_bytes())?;
        return Some(Item { count: 1, value });
    };
    let count = number_in(count.as_bytes())?;
    let value = number_in(value.as_bytes())?;
    if count == 0 {
        return None;
    }
    Some(Item { count, value })
}

/// The items of a list, with commas between, if each is well formed.
fn items_in(alloc: Global, text: &str) -> Result<Option<Vec<Item>>, AllocError>
    ensures { IfOk result (λ o. option_map (λ v. v.items) o ≡ option_map (map capped) (items_in text.now)) }
{
    let mut items = Vec::new(alloc);
    let mut left = text;
    while let Some((first, rest)) = left.split_once(',') {
        let Some(item) = item_in(first) else {
            return Ok(None);
        };
        items.push(item)?;
        left = rest;
    }
    let Some(item) = item_in(left) else {
        return Ok(None);
    };
    items.push(item)?;
    Ok(Some(items))
}

/// How many numbers items stand for; one more than an actor may have phases stands for more.
fn count_in(items: &[Item]) -> u64
    ensures { result ≡ min (count_in items.now) (PHASES + 1) }
{
    let mut count: u64 = 0;
    for item in items {
        count = (count + item.count.min(PHASES + 1)).min(PHASES + 1);
    }
    count
}

/// The numbers of items. Cost: linear in the numbers.
fn numbers_of(alloc: Global, items: &[Item]) -> Result<Rows<u64>, AllocError>
    ensures { IfOk result (λ list. list ≡ numbers_of items.now) }
{
    let mut list = Rows::new(alloc);
    for item in items {
        push_run(&mut list, *item)?;
    }
    Ok(list)
}

fn push_run(list: &mut Rows<u64>, item: Item) -> Result<(), AllocError>
    ensures { OnOk result (list.new ≡ list.old ++ replicate item.count item.value) }
{
    for _i in 0..item.count {
        list.push(item.value)?;
    }
    Ok(())
}

fn is_some_above(items: &[Item], limit: u64) -> bool
    ensures { result ≡ list_any (λ (i : Item). nat_lt limit i.value) items.now }
{
    items.iter().any(|item| limit < item.value)
}

fn is_some_below(items: &[Item], least: u64) -> bool
    ensures { result ≡ list_any (λ (i : Item). nat_lt i.value least) items.now }
{
    items.iter().any(|item| item.value < least)
}

fn are_all_zero(list: &[u64]) -> bool
    ensures { result ≡ list_all (λ n. n == 0) list.now }
{
    list.iter().all(|n| *n == 0)
}

/// The count of the items' numbers, if an actor may have as many phases.
fn few_numbers(items: &[Item]) -> Result<u64, ReadError>
    ensures { Gives (λ n. n) result (within Phases PHASES (count_in items.now)) }
{
    within(Quantity::Phases, PHASES, count_in(items))
}

/// The numbers of items, within their limits. Numbers are counted before the list is made, so a long list that is
/// written short wants no memory.
#[tactic(auto, unfolding(crate::specs::NumberTexts::tested_items))]
fn tested_items(
    alloc: Global,
    items: &[Item],
    least: u64,
    meaning: &Meaning<'_>,
) -> Result<Rows<u64>, ReadError>
    ensures { let m = meaning.now in Gives (λ ns. ns) result (tested_items least m.what m.of.now m.quantity m.limit items.now) }
{
    if is_some_above(items, meaning.limit) {
        return Err(ReadError::Limit {
            what: meaning.quantity,
        });
    }
    if is_some_below(items, least) {
        return Err(bad_number(alloc, meaning.what, meaning.of));
    }
    few_numbers(items)?;
    let list = numbers_of(alloc, items)?;
    if are_all_zero(list.as_slice()) {
        return Err(bad_number(alloc, meaning.what, meaning.of));
    }
    Ok(list)
}

/// A list of numbers from a least one up to a limit, at most one for each phase that an actor may have, and not all 0.
#[tactic(auto, unfolding(crate::specs::NumberTexts::number_list))]
fn number_list(
    alloc: Global,
    text: &str,
    least: u64,
    meaning: &Meaning<'_>,
) -> Result<Rows<u64>, ReadError>
    requires limit { meaning.now.limit < GREATEST }
    requires least { least < GREATEST }
    ensures { let m = meaning.now in Gives (λ ns. ns) result (number_list least m.what m.of.now m.quantity m.limit text.now) }
{
    match items_in(alloc, text)? {
        Some(items) => tested_items(alloc, items.as_slice(), least, meaning),
        None => Err(bad_number(alloc, meaning.what, meaning.of)),
    }
}

/// A list of one number.
fn single(alloc: Global, n: u64) -> Result<Rows<u64>, AllocError>
    ensures { IfOk result (λ list. list ≡ n ∷ []) }
{
    let mut list = Rows::new(alloc);
    list.push(n)?;
    Ok(list)
}

/// Numbers by phase: one that isn't 0 in a synchronous graph, a list in a cyclo-static one.
#[tactic(auto, unfolding(crate::specs::NumberTexts::numbers))]
pub fn numbers(
    alloc: Global,
    kind: Kind,
    text: &str,
    least: u64,
    meaning: &Meaning<'_>,
) -> Result<Rows<u64>, ReadError>
    requires limit { meaning.now.limit < GREATEST }
    requires least { least < GREATEST }
    ensures { let m = meaning.now in Gives (λ ns. ns) result (numbers kind least m.what m.of.now m.quantity m.limit text.now) }
{
    match kind {
        Kind::Sdf => {
            let n = positive(alloc, text, meaning)?;
            Ok(single(alloc, n)?)
        }
        Kind::Csdf => number_list(alloc, text, least, meaning),
    }
}

/// A list of its own with these numbers.
pub(crate) fn list_copy(alloc: Global, list: &[u64]) -> Result<Rows<u64>, AllocError>
    ensures { IfOk result (λ copy. copy ≡ list.now) }
{
    Ok(Rows::from_vec(Vec::from_slice(alloc, list)?))
}
