//! The value of `--order`.

ghost use Rattle.std.specs.Prelude.{◌≡◌, ◌==◌, IfOk, map};
ghost use Rattle.std.specs.List.{slice_split};
ghost use Rattle.sd_words.specs.OrderLists.{order_of, orders_of};

use escapes::unescaped;
use sd_base::{Rows, Text};
use std::alloc::{AllocError, Global};

/// The orders of a value of `--order`, or none where it isn't of its form. Cost: linear in its bytes.
#[tactic(auto, unfolding(crate::specs::OrderLists::orders_of))]
pub(crate) fn orders_of(alloc: Global, value: &str) -> Result<Option<Rows<Rows<Text>>>, AllocError>
    ensures { IfOk result (λ orders. orders ≡ orders_of value.now) }
{
    let parts = lists_in(alloc, value)?;
    let mut orders = Vec::new(alloc);
    for part in &parts {
        let Some(order) = order_of(alloc, part)? else {
            return Ok(None);
        };
        orders.push(order)?;
    }
    Ok(Some(Rows::from_vec(orders)))
}

// The order of a processor, or none where it isn't of its form.
#[tactic(auto, unfolding(crate::specs::OrderLists::order_of))]
fn order_of(alloc: Global, part: &str) -> Result<Option<Rows<Text>>, AllocError>
    ensures { IfOk result (λ order. order ≡ order_of part.now) }
{
    let parts = names_in(alloc, part)?;
    let mut names = Vec::new(alloc);
    for name in &parts {
        let Some(actor) = unescaped(alloc, name)? else {
            return Ok(None);
        };
        names.push(actor)?;
    }
    Ok(Some(Rows::from_vec(names)))
}

// The parts of a value between slashes.
fn lists_in<'a>(alloc: Global, value: &'a str) -> Result<Vec<&'a str>, AllocError>
    ensures { IfOk result (λ parts. map (λ p. p.now) parts.items ≡ slice_split (λ b. b == 47) value.now) }
{
    value.split('/').collect(alloc)
}

// The parts of a list between commas.
fn names_in<'a>(alloc: Global, list: &'a str) -> Result<Vec<&'a str>, AllocError>
    ensures { IfOk result (λ parts. map (λ p. p.now) parts.items ≡ slice_split (λ b. b == 44) list.now) }
{
    list.split(',').collect(alloc)
}
