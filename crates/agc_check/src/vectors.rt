//! Finds the interrupt vectors at which a rope holds +0.
ghost use Rattle.std.specs.Prelude.{◌≡◌, ◌<◌, ◌++◌, OnOk, string_bytes};
ghost use Rattle.agc_check.specs.Vectors.{empty_vectors_text, has_empty_vector, is_empty_vector, remark_head};
ghost use Rattle.agc_check.specs.Vectors.{vector_of, vector_text, vectors_remark, vectors_text};

use agc_listing::{Place, push_place};
use agc_mend::is_woven_at;
use agc_store::Store;
use std::alloc::AllocError;

/// Appends a remark on the vectors that hold +0, if there are any: an interrupt there would execute such words and run
/// off.
#[tactic(auto, unfolding(crate::specs::Vectors::vectors_text))]
pub(crate) fn push_vectors(text: &mut String, store: &Store) -> Result<(), AllocError>
    ensures { OnOk result
        (string_bytes text.new ≡ string_bytes text.old ++ vectors_text store.now.fixed) }
{
    if has_empty_vector(store) {
        push_remark(text, store)
    } else {
        Ok(())
    }
}

/// Appends the remark on the vectors that hold +0.
#[tactic(auto, unfolding(crate::specs::Vectors::vectors_remark))]
fn push_remark(text: &mut String, store: &Store) -> Result<(), AllocError>
    ensures { OnOk result
        (string_bytes text.new ≡ string_bytes text.old ++ vectors_remark store.now.fixed) }
{
    push_head(text)?;
    push_empty_vectors(text, store)?;
    text.push_str("\n")
}

#[tactic(auto, unfolding(crate::specs::Vectors::remark_head))]
fn push_head(text: &mut String) -> Result<(), AllocError>
    ensures { OnOk result (string_bytes text.new ≡ string_bytes text.old ++ remark_head) }
{
    text.push_str(
        "    these interrupt vectors are empty, and an interrupt there runs off into the registers:",
    )
}

#[tactic(auto, unfolding(crate::specs::Vectors::has_empty_vector))]
fn has_empty_vector(store: &Store) -> bool
    ensures { result ≡ has_empty_vector store.now.fixed }
{
    (0..10).any(|index| is_empty_vector(store, index))
}

/// Appends the vectors that hold +0.
#[tactic(auto, unfolding(crate::specs::Vectors::empty_vectors_text))]
fn push_empty_vectors(text: &mut String, store: &Store) -> Result<(), AllocError>
    ensures { OnOk result
        (string_bytes text.new ≡ string_bytes text.old ++ empty_vectors_text store.now.fixed) }
{
    for index in 0..10 {
        push_vector(text, store, index)?;
    }
    Ok(())
}

/// Appends a vector if it holds +0.
#[tactic(auto, unfolding(crate::specs::Vectors::vector_text))]
fn push_vector(text: &mut String, store: &Store, index: usize) -> Result<(), AllocError>
    requires { index < 10 }
    ensures { OnOk result
        (string_bytes text.new ≡ string_bytes text.old ++ vector_text store.now.fixed index) }
{
    if is_empty_vector(store, index) {
        text.push_str(" ")?;
        push_place(text, Place::Plain(vector_of(index) as u16))
    } else {
        Ok(())
    }
}

/// Returns whether the word at a vector is +0.
#[tactic(auto, unfolding(crate::specs::Vectors::is_empty_vector))]
fn is_empty_vector(store: &Store, index: usize) -> bool
    requires { index < 10 }
    ensures { result ≡ is_empty_vector store.now.fixed index }
{
    !is_woven_at(store, vector_of(index))
}

/// Returns the start of an interrupt's service: there are ten, four words apart, from 4004 octal on.
#[tactic(auto, unfolding(crate::specs::Vectors::vector_of))]
fn vector_of(index: usize) -> usize
    requires { index < 10 }
    ensures vector { result ≡ vector_of index }
    ensures range { result < 0o10000 }
{
    0o4004 + 4 * index
}
