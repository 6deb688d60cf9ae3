//! Actors with their ports.

ghost use Rattle.std.specs.Prelude.{◌≡◌, ◌+◌, ◌≤◌, ℕ, [], length, map, false, codes, IfOk};
ghost use Rattle.file_text.specs.Node.{tree_of};
ghost use Rattle.graph_reader.specs.TreeSteps.{Gives, each, children};
ghost use Rattle.graph_reader.specs.Sections.{is_among, direction_in, port_of, port_count, actor_of, actors_of};

use crate::elements::{elements_in, required, split_named};
use crate::error::{bad_word, copied, missing};
use crate::names::new_name;
use crate::numbers::{Meaning, numbers, within};
use crate::register::{Named, Register};
use crate::{Field, ReadError};
use file_text::Element;
use sd_base::limits::{ACTORS, PORTS, RATE};
use sd_base::{Kind, Quantity, Rows, Text};
use std::alloc::Global;

/// Whether tokens come in or go out at a port.
#[derive(Clone, Copy, PartialEq, Eq)]
pub enum Direction {
    In,
    Out,
}

/// A port of an actor, as a graph file has it. No other port of the actor has its name.
pub struct Port {
    pub name: Text,
    pub direction: Direction,
    /// Tokens of a firing, by phase, as the file has them.
    pub rates: Rows<u64>,
}

// By hand, so that what drops one calls this, and does not drop each of its parts.
impl Drop for Port {
    fn drop(self) {
        let Port {
            name: _name,
            direction: _direction,
            rates: _rates,
        } = self;
    }
}

/// An actor as its own element has it, with its ports in file order; its times stand in the properties.
pub struct Actor {
    pub name: Text,
    pub ports: Register<Port>,
}

// By hand, so that what drops one calls this, and does not drop each of its parts.
impl Drop for Actor {
    fn drop(self) {
        let Actor {
            name: _name,
            ports: _ports,
        } = self;
    }
}

impl Named for Port {
    ghost name_of = { λ p. p.name };

    fn name(&self) -> &Text {
        &self.name
    }
}

impl Named for Actor {
    ghost name_of = { λ a. a.name };

    fn name(&self) -> &Text {
        &self.name
    }
}

fn direction_in(alloc: Global, of: &str, word: &str) -> Result<Direction, ReadError>
    ensures { Gives (λ d. d) result (direction_in of.now word.now) }
{
    if word == "in" {
        return Ok(Direction::In);
    }
    if word == "out" {
        return Ok(Direction::Out);
    }
    Err(bad_word(alloc, Field::TypeWord, of))
}

#[tactic(auto, unfolding(crate::specs::Sections::port_of))]
fn read_port(
    alloc: Global,
    kind: Kind,
    actor: &str,
    before: u64,
    done: &Register<Port>,
    element: &Element,
) -> Result<Port, ReadError>
    requires { before + length done.now ≤ PORTS }
    ensures gives { Gives (λ p. p) result (port_of kind actor.now before done.now (tree_of element.now)) }
    ensures few { IfOk result (λ _. before + length done.now + 1 ≤ PORTS) }
    ensures new { IfOk result (λ p. is_among p.name (map (λ (p : Port). p.name) done.now) ≡ false) }
{
    let name = new_name(alloc, actor, done, element)?;
    within(Quantity::Ports, PORTS, before + done.len() as u64 + 1)?;
    let word = required(alloc, element, Field::TypeWord, actor)?;
    let direction = direction_in(alloc, actor, word)?;
    let text = required(alloc, element, Field::Rate, actor)?;
    let meaning = Meaning {
        what: Field::Rate,
        of: actor,
        quantity: Quantity::Rate,
        limit: RATE,
    };
    let rates = numbers(alloc, kind, text, 0, &meaning)?;
    let name = copied(alloc, name)?;
    Ok(Port {
        name,
        direction,
        rates,
    })
}

#[tactic(auto, unfolding(crate::specs::TreeSteps::children))]
fn read_ports(
    alloc: Global,
    kind: Kind,
    actor: &str,
    before: u64,
    element: &Element,
) -> Result<Register<Port>, ReadError>
    requires { before ≤ PORTS }
    ensures gives { let elements = children (codes "port") (tree_of element.now) in
        Gives (λ ps. ps) result (each (port_of kind actor.now before) [] elements) }
    ensures few { IfOk result (λ ps. before + length ps ≤ PORTS) }
{
    let mut ports = Register::new(alloc);
    let mut left = elements_in(element);
    while let Some((child, rest)) = split_named(left, "port") {
        let port = read_port(alloc, kind, actor, before, &ports, child)?;
        ports = ports.with(alloc, port)?;
        left = rest;
    }
    Ok(ports)
}

#[tactic(auto, unfolding(crate::specs::Sections::actor_of))]
fn read_actor(
    alloc: Global,
    kind: Kind,
    of: &str,
    ports_before: u64,
    done: &Register<Actor>,
    element: &Element,
) -> Result<Actor, ReadError>
    requires counted { ports_before ≡ port_count done.now }
    requires few_ports { ports_before ≤ PORTS }
    requires few_actors { length done.now ≤ ACTORS }
    ensures gives { Gives (λ a. a) result (actor_of kind of.now done.now (tree_of element.now)) }
    ensures few_ports { IfOk result (λ a. ports_before + length a.ports ≤ PORTS) }
    ensures few_actors { IfOk result (λ _. length done.now + 1 ≤ ACTORS) }
    ensures new { IfOk result (λ a. is_among a.name (map (λ (b : Actor). b.name) done.now) ≡ false) }
{
    let name = new_name(alloc, of, done, element)?;
    within(Quantity::Actors, ACTORS, done.len() as u64 + 1)?;
    let ports = read_ports(alloc, kind, name, ports_before, element)?;
    let name = copied(alloc, name)?;
    Ok(Actor { name, ports })
}

/// The actors of a section, of which there is one at least.
#[tactic(auto, unfolding(crate::specs::Sections::actors_of, crate::specs::TreeSteps::children))]
pub(crate) fn read_actors(
    alloc: Global,
    kind: Kind,
    of: &str,
    section: &Element,
) -> Result<Register<Actor>, ReadError>
    ensures gives { Gives (λ actors. actors) result (actors_of kind of.now (tree_of section.now)) }
    ensures few { IfOk result (λ actors. length actors ≤ ACTORS) }
{
    let mut actors = Register::new(alloc);
    let mut ports: u64 = 0;
    let mut left = elements_in(section);
    while let Some((child, rest)) = split_named(left, Field::Actor.word()) {
        let actor = read_actor(alloc, kind, of, ports, &actors, child)?;
        ports += actor.ports.len() as u64;
        actors = actors.with(alloc, actor)?;
        left = rest;
    }
    if actors.is_empty() {
        return Err(missing(alloc, Field::Actor, of));
    }
    Ok(actors)
}
