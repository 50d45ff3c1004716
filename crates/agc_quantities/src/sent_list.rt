//! The lists that a program sends by the downlink, and where one has come whole.
ghost use Rattle.std.specs.Prelude.{◌≡◌, find, option_map};
ghost use Rattle.std.specs.List.{list_any};
ghost use Rattle.agc_quantities.specs.SentList.{begins_list, comes_whole, has_head, if_whole, list_at};

use crate::quantity::Kind;
use crate::sent::Pair;

/// A quantity of a list.
#[derive(Drop)]
pub struct SentQuantity {
    pub name: String,
    /// The number of its first word in the list, from 0.
    pub place: usize,
    pub kind: Kind,
}

/// A list: the words by which it begins, and its quantities.
#[derive(Drop)]
pub struct SentList {
    pub name: String,
    /// The words of its first pair, as patterns.
    pub first: u16,
    pub second: u16,
    /// The number of pairs until all quantities are there.
    pub pairs: usize,
    pub quantities: Vec<SentQuantity>,
}

/// Returns the list that comes whole with these pairs: the first pair begins it, and none of its later pairs begins a list.
#[tactic(auto, unfolding(crate::specs::SentList::list_at))]
pub fn list_at<'a>(lists: &'a [SentList], pairs: &[Pair]) -> Option<&'a SentList>
    ensures { option_map (λ list. list.now) result ≡ list_at lists.now pairs.now }
{
    match pairs.split_first() {
        Some((pair, rest)) => list_with(lists, *pair, rest),
        None => None,
    }
}

/// Returns the list that comes whole with a pair and those after it.
fn list_with<'a>(lists: &'a [SentList], pair: Pair, rest: &[Pair]) -> Option<&'a SentList>
    ensures { option_map (λ list. list.now) result
        ≡ if_whole lists.now rest.now (find (has_head pair) lists.now) }
{
    match headed_list(lists, pair) {
        Some(list) => {
            if comes_whole(lists, list.pairs, rest) {
                Some(list)
            } else {
                None
            }
        }
        None => None,
    }
}

/// Returns the first list that begins by a pair.
fn headed_list(lists: &[SentList], pair: Pair) -> Option<&SentList>
    ensures { option_map (λ list. list.now) result ≡ find (has_head pair) lists.now }
{
    lists.iter().find(|list| has_head(list, pair))
}

/// Returns whether a list of this many pairs comes whole, of which these follow the first.
fn comes_whole(lists: &[SentList], pairs: usize, rest: &[Pair]) -> bool
    ensures { result ≡ comes_whole lists.now pairs rest.now }
{
    let more = pairs.saturating_sub(1);
    if rest.len() < more {
        return false;
    }
    !has_begin(lists, &rest[..more])
}

/// Returns whether one of these pairs begins a list.
fn has_begin(lists: &[SentList], pairs: &[Pair]) -> bool
    ensures { result ≡ list_any (begins_list lists.now) pairs.now }
{
    pairs.iter().any(|pair| begins_list(lists, *pair))
}

/// Returns whether a pair begins a list.
fn begins_list(lists: &[SentList], pair: Pair) -> bool
    ensures { result ≡ begins_list lists.now pair }
{
    lists.iter().any(|list| has_head(list, pair))
}

/// Returns whether a list begins by this pair.
fn has_head(list: &SentList, pair: Pair) -> bool
    ensures { result ≡ has_head pair list.now }
{
    list.first == pair.first && list.second == pair.second
}
