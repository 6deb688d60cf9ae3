//! Vectors and levels as texts.
use covers::Level;
use sd_base::{NoMemory, Rows};
use std::alloc::Global;

/// Writes a vector, with a comma after each capacity.
pub(crate) fn push_vector(
    alloc: Global,
    text: &mut String,
    vector: &[u64],
) -> Result<(), NoMemory> {
    for capacity in vector {
        let part = format!(in alloc; "{},", capacity)?;
        text.push_str(part.as_str())?;
    }
    Ok(())
}

/// Writes vectors, with a space before each.
pub(crate) fn push_vectors(
    alloc: Global,
    text: &mut String,
    vectors: &[Rows<u64>],
) -> Result<(), NoMemory> {
    for vector in vectors {
        text.push_str(" ")?;
        push_vector(alloc, text, vector.as_slice())?;
    }
    Ok(())
}

/// What is asked for: the storage, and the vectors one after the other.
pub(crate) fn level_text(alloc: Global, level: &Option<Level>) -> Result<String, NoMemory> {
    let Some(level) = level else {
        return Ok(String::from_str(alloc, "settled")?);
    };
    let mut text = format!(in alloc; "{}:", level.storage)?;
    push_vectors(alloc, &mut text, level.vectors.as_slice())?;
    Ok(text)
}

/// The first vector that is asked for.
pub(crate) fn first_text(alloc: Global, first: &Option<Rows<u64>>) -> Result<String, NoMemory> {
    let Some(vector) = first else {
        return Ok(String::from_str(alloc, "settled")?);
    };
    let mut text = String::new(alloc);
    push_vector(alloc, &mut text, vector.as_slice())?;
    Ok(text)
}
