// Uses the library step by step on a small town, and prints each action with its answer.
#![tactic(auto)]

ghost use Rattle.std.specs.Prelude.{◌≡◌};
ghost use Rattle.network.specs.Edits.{after_edit};
ghost use Rattle.network.specs.View.{view};
ghost use Rattle.walkthrough.specs.Edits.{edit_of};

use crate::answer::tell;
use crate::edit::Edit;
use network::network::Network;
use std::{env, fmt, io};

mod answer;
mod edit;
mod files;

// A set of nodes, printed as its marks.
#[derive(Clone, Copy)]
struct District<'a> {
    marks: &'a [u8],
}

impl fmt::Display for District<'_> {
    fn fmt<W: fmt::Write>(&self, f: &mut fmt::Formatter<W>) -> fmt::Result {
        for mark in self.marks {
            write!(f, "{mark}")?;
        }
        Ok(())
    }
}

// Makes an edit, and prints it with its answer.
// (The runtime stays a parameter beside the town: in a struct that holds both, the contract would speak of a borrow.)
fn make(rt: &impl Print, town: &mut Network, edit: Edit) -> io::Result<()>
    ensures { view town.new ≡ after_edit (view town.old) (edit_of edit) }
{
    tell(rt, &edit, edit.apply(town))
}

// Lays a pipe at this cost between the nodes of each pair.
fn join_all(
    rt: &impl Print,
    town: &mut Network,
    ends: &[(usize, usize)],
    cost: u32,
) -> io::Result<()> {
    for (first, second) in ends {
        make(
            rt,
            town,
            Edit::Join {
                first: *first,
                second: *second,
                cost,
            },
        )?;
    }
    Ok(())
}

// Two triangles of pipes that cost 3, joined by a pipe that costs 1, with some slips on the way.
fn build(rt: &impl Print, town: &mut Network) -> io::Result<()> {
    for weight in [1, 1, 1, 1, 1, 4_001, 10] {
        make(rt, town, Edit::Add { weight })?;
    }
    make(rt, town, Edit::Weigh { node: 5, weight: 1 })?;
    join_all(
        rt,
        town,
        &[(0, 1), (1, 2), (0, 2), (3, 4), (4, 5), (3, 5)],
        3,
    )?;
    join_all(rt, town, &[(0, 4)], 2)?;
    join_all(rt, town, &[(2, 3), (2, 6)], 1)?;
    for pipe in [6, 7] {
        make(rt, town, Edit::Remove { pipe })?;
    }
    Ok(())
}

// Prints what a proposed district comes to.
fn appraise(rt: &impl Print, town: &Network, district: District) -> anyhow::Result<()> {
    let weight = town.weight(district.marks)?;
    let (boundary, denominator) = town.relative(district.marks, district.marks)?;
    let (_, lighter) = town.quotient(district.marks)?;
    println!(rt; "appraise the proposed district {district}")?;
    println!(rt; "  weight {weight}, boundary {boundary}, denominator {denominator}")?;
    if lighter == 0 {
        println!(rt; "  no quotient, since one side weighs nothing")?;
    } else {
        println!(rt; "  quotient {boundary}/{lighter}")?;
    }
    Ok(())
}

// Prints the score of a set of nodes relative to a proposal.
fn relate(
    rt: &impl Print,
    town: &Network,
    proposal: District,
    set: District,
) -> anyhow::Result<()> {
    let (boundary, denominator) = town.relative(proposal.marks, set.marks)?;
    println!(rt; "relative to {proposal}, the set {set}")?;
    println!(rt; "  boundary {boundary}, denominator {denominator}")?;
    Ok(())
}

fn walk(rt: &HostRuntime) -> anyhow::Result<()> {
    let mut town = Network::new(rt.alloc())?;
    build(rt, &mut town)?;
    let corner = District {
        marks: &[1, 1, 0, 0, 0, 0],
    };
    let triangle = District {
        marks: &[1, 1, 1, 0, 0, 0],
    };
    let rest = District {
        marks: &[0, 0, 1, 1, 1, 1],
    };
    appraise(rt, &town, corner)?;
    appraise(rt, &town, triangle)?;
    relate(rt, &town, corner, triangle)?;
    relate(rt, &town, corner, rest)?;
    files::tour(rt, &town)
}

fn help(rt: &impl Print) -> io::Result<()> {
    println!(rt; "usage: walkthrough")?;
    println!(rt; "Builds a small water network by edits, some of them refused,")?;
    println!(rt; "appraises two proposed districts of it, writes it to a network file")?;
    println!(rt; "and reads the file back, whole and damaged, and prints each step.")
}

fn run(rt: &HostRuntime) -> anyhow::Result<()> {
    match env::args(rt)?.nth(1) {
        Some(_) => help(rt)?,
        None => walk(rt)?,
    }
    Ok(())
}

fn main(rt: HostRuntime) -> anyhow::Result<()> {
    run(&rt)
}
