use std::alloc::{AllocError, Global};
use test_nets::Line;

/// A scenario: the times of its actors, and its channels by name.
#[derive(Clone, Copy)]
pub(crate) struct Scenario<'a> {
    pub(crate) times: &'a [u64],
    pub(crate) channels: &'a [(&'a str, Line)],
}

/// A file of scenarios: they, and by state the scenario that it runs and the states that may follow. State 0 is the initial one.
#[derive(Clone, Copy)]
pub(crate) struct Outline<'a> {
    pub(crate) scenarios: &'a [Scenario<'a>],
    pub(crate) states: &'a [(usize, &'a [usize])],
}

/// The text of a file.
pub(crate) fn text_of(alloc: Global, outline: &Outline) -> Result<String, AllocError> {
    let mut text = String::new(alloc);
    text.push_str("<sdf3 type='fsmsadf' version='1.0'><applicationGraph><fsmsadf>")?;
    for (number, scenario) in outline.scenarios.iter().enumerate() {
        write!(text, "<scenario name='m{number}'>")?;
        put_graph(&mut text, scenario)?;
        text.push_str("</scenario>")?;
    }
    text.push_str("<fsm initialState='q0'>")?;
    for (number, state) in outline.states.iter().enumerate() {
        put_state(&mut text, number, state.0, state.1)?;
    }
    text.push_str("</fsm></fsmsadf></applicationGraph></sdf3>")?;
    Ok(text)
}

fn put_graph(text: &mut String, scenario: &Scenario) -> Result<(), AllocError> {
    text.push_str("<sdf>")?;
    for actor in 0..scenario.times.len() {
        put_actor(text, actor, scenario.channels)?;
    }
    for (name, line) in scenario.channels {
        put_channel(text, name, line)?;
    }
    text.push_str("</sdf><sdfProperties>")?;
    for (actor, time) in scenario.times.iter().enumerate() {
        put_time(text, actor, *time)?;
    }
    text.push_str("</sdfProperties>")
}

fn put_actor(text: &mut String, actor: usize, channels: &[(&str, Line)]) -> Result<(), AllocError> {
    write!(text, "<actor name='a{actor}'>")?;
    for (name, line) in channels {
        if line.source as usize == actor {
            put_port(text, "out", name, line.made)?;
        }
        if line.target as usize == actor {
            put_port(text, "in", name, line.taken)?;
        }
    }
    text.push_str("</actor>")
}

fn put_port(text: &mut String, side: &str, channel: &str, rate: u64) -> Result<(), AllocError> {
    write!(
        text,
        "<port name='{channel}-{side}' type='{side}' rate='{rate}'/>"
    )
}

fn put_channel(text: &mut String, name: &str, line: &Line) -> Result<(), AllocError> {
    let (source, target, tokens) = (line.source, line.target, line.tokens);
    write!(
        text,
        "<channel name='{name}' srcActor='a{source}' srcPort='{name}-out' "
    )?;
    write!(
        text,
        "dstActor='a{target}' dstPort='{name}-in' initialTokens='{tokens}'/>"
    )
}

fn put_time(text: &mut String, actor: usize, time: u64) -> Result<(), AllocError> {
    write!(
        text,
        "<actorProperties actor='a{actor}'><processor type='p' default='true'>"
    )?;
    write!(
        text,
        "<executionTime time='{time}'/></processor></actorProperties>"
    )
}

fn put_state(
    text: &mut String,
    state: usize,
    scenario: usize,
    next: &[usize],
) -> Result<(), AllocError> {
    write!(text, "<state name='q{state}' scenario='m{scenario}'>")?;
    for other in next {
        write!(text, "<next state='q{other}'/>")?;
    }
    text.push_str("</state>")
}
