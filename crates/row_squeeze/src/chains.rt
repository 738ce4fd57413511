//! Chains of columns that links join: which column is in which.
ghost use Rattle.std.specs.Prelude.{◌≡◌, ◌<◌, ◌==◌, [], cond, length, map, fold, IfOk, IfSome, OnOk};
ghost use Rattle.std.specs.List.{range_with_len};
ghost use Rattle.row_squeeze.specs.Chains.{joined, heads_of, place_of, with_head, chain_count, chain_places};
ghost use Rattle.row_squeeze.specs.Working.Parts.{LieWithin};

use crate::{Link, Memory};
use std::alloc::Global;

/// How many chains there are, and for each column the place of its chain.
#[derive(Debug, Drop)]
pub struct Chains {
    pub count: usize,
    pub places: Vec<usize>,
}

/// The chains of that many columns. A column that no link joins to another is a chain of its own.
pub fn chains_of(alloc: Global, links: &[Option<Link>], columns: usize) -> Result<Chains, Memory>
    requires { LieWithin columns links.now }
    ensures count { IfOk result (λ chains. chains.count ≡ chain_count columns links.now) }
    ensures places { IfOk result (λ chains. chains.places.items ≡ chain_places columns links.now) }
{
    let heads = heads(alloc, links, columns)?;
    let chain_heads = chain_heads(alloc, &heads)?;
    let places = places(alloc, &heads, &chain_heads)?;
    Ok(Chains {
        count: chain_heads.len(),
        places,
    })
}

/// The numbers below `count`.
#[tactic(auto, using(crate::proofs::Steps::range_push))]
fn numbers(alloc: Global, count: usize) -> Result<Vec<usize>, Memory>
    ensures { IfOk result (λ numbers. numbers.items ≡ range_with_len 0 count) }
{
    let mut numbers = Vec::with_capacity(alloc, count)?;
    for number in 0..count {
        numbers.push(number)?;
    }
    Ok(numbers)
}

/// For each column the head of its chain, a column that no link leaves.
fn heads(alloc: Global, links: &[Option<Link>], columns: usize) -> Result<Vec<usize>, Memory>
    requires { LieWithin columns links.now }
    ensures { IfOk result (λ heads. heads.items ≡ heads_of columns links.now) }
{
    let mut heads = numbers(alloc, columns)?;
    for row in 0..links.len() {
        join(&mut heads, links[row]);
    }
    Ok(heads)
}

/// Makes one chain of those of the link's two columns.
fn join(heads: &mut [usize], link: Option<Link>)
    requires { IfSome link (λ link. (link.outgoing < length heads.old)
        × (link.incoming < length heads.old)) }
    ensures { heads.new ≡ joined heads.old link }
{
    if let Some(link) = link {
        let from = heads[link.outgoing];
        let to = heads[link.incoming];
        replace(heads, from, to);
    }
}

fn replace(heads: &mut [usize], from: usize, to: usize)
    ensures { heads.new ≡ map (λ head. cond (head == from) to head) heads.old }
{
    for i in 0..heads.len() {
        heads[i] = replaced(heads[i], from, to);
    }
}

fn replaced(head: usize, from: usize, to: usize) -> usize
    ensures { result ≡ cond (head == from) to head }
{
    if head == from { to } else { head }
}

/// The heads, each once, in the order in which they come first.
fn chain_heads(alloc: Global, heads: &[usize]) -> Result<Vec<usize>, Memory>
    ensures { IfOk result (λ chain_heads. chain_heads.items ≡ fold with_head [] heads.now) }
{
    let mut chain_heads = Vec::new(alloc);
    for head in heads {
        push_head(&mut chain_heads, *head)?;
    }
    Ok(chain_heads)
}

/// Adds the head, if it isn't there yet.
fn push_head(heads: &mut Vec<usize>, head: usize) -> Result<(), Memory>
    ensures { OnOk result (heads.new.items ≡ with_head heads.old.items head) }
{
    if place_of(head, heads) == heads.len() {
        heads.push(head)?;
    }
    Ok(())
}

/// The place of a head among heads, or their number.
#[tactic(auto, using(crate::proofs::Steps::place_next, crate::proofs::Steps::place_here, crate::proofs::Steps::place_past))]
fn place_of(head: usize, heads: &[usize]) -> usize
    ensures { result ≡ place_of head heads.now }
{
    for place in 0..heads.len() {
        if heads[place] == head {
            return place;
        }
    }
    heads.len()
}

/// The place of each column's head among the heads of the chains.
fn places(alloc: Global, heads: &[usize], chain_heads: &[usize]) -> Result<Vec<usize>, Memory>
    ensures { IfOk result (λ places. places.items
        ≡ map (λ head. place_of head chain_heads.now) heads.now) }
{
    let mut places = Vec::with_capacity(alloc, heads.len())?;
    for head in heads {
        places.push(place_of(*head, chain_heads))?;
    }
    Ok(places)
}
