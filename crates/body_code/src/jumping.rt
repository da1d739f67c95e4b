//! The code of a body of whose order nothing is known, since it has a `goto`.

ghost use Rattle.std.specs.Prelude.{◌≡◌, map};
ghost use Rattle.body_parts.specs.PartViews.{part_view};
ghost use Rattle.code.specs.CodeViews.{IsCode};
ghost use Rattle.body_code.specs.SiteViews.{sites_view};
ghost use Rattle.meaning.specs.Jumps.{parts_of};
ghost use Rattle.meaning.specs.StatementCode.{part_code, one_of, jumping_code};
ghost use Rattle.tree.specs.View.{statements_syntax};

use crate::site::{declaration, leaving, site};
use crate::sites::Sites;
use body_parts::{Part, parts_of};
use code::parts::{Made, one_of, one_turn, turns};
use code::{Code, Way};
use std::alloc::Global;
use tree::Stmt;

/// The code of a part.
fn part_code<'a, E: Copy>(alloc: Global, sites: &Sites<E>, part: Part<'_>) -> Made<'a, E>
    ensures { IsCode result (part_code (sites_view sites.now) (part_view part.entry)) }
{
    match part {
        Part::Declaration(declared) => declaration(alloc, sites, declared),
        Part::Return(at) => leaving(alloc, sites, at, Way::Returning),
        Part::Goto(at) => site(alloc, sites, at),
        Part::Plain(at) => site(alloc, sites, at),
    }
}

/// The code of one of these parts, or past them.
fn one_part<'a, E: Copy>(alloc: Global, sites: &Sites<E>, parts: &[Part<'_>]) -> Made<'a, E>
    ensures { IsCode result (one_of (sites_view sites.now) (map part_view parts.now)) }
{
    let mut codes = Vec::new(alloc);
    for part in parts {
        let code = part_code(alloc, sites, *part)?;
        codes.push(code)?;
    }
    codes.push(Code::Skip)?;
    Ok(one_of(codes))
}

/// The code of these statements, one of which jumps: any of their parts, in any order and any number of times.
pub fn jumping<'a, E: Copy>(alloc: Global, sites: &Sites<E>, list: &[Stmt]) -> Made<'a, E>
    ensures { IsCode result (jumping_code (sites_view sites.now) (parts_of (statements_syntax list.now))) }
{
    let parts = parts_of(alloc, list)?;
    let once = one_part(alloc, sites, &parts);
    turns(
        alloc,
        &[],
        Ok(Code::Skip),
        one_turn(alloc, &[], true, once, Ok(Code::Skip)),
    )
}
