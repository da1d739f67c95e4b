//! What certificates give for one package.

ghost use Rattle.std.specs.Prelude.{◌≡◌, ℕ, List, IfOk, OnOk, None, map, option_map};
ghost use Rattle.certificate_json.specs.Certificates.{body_of, package_of, rows_of};
ghost use Rattle.facts.specs.FactViews.{type_view};
ghost use Rattle.first_values.specs.ValuesByName.{only_at};
ghost use Rattle.meaning.specs.OuterBlocks.{or_else};
ghost use Rattle.table_json.specs.Tables.{entry_of};
ghost use Rattle.verifier.specs.GivenViews.{rows_at, only_rows, rows_in, params_at, claim_of, claim_at, claim_in, first_params, given_of, TellsGiven};

use crate::first::keep_first;
use certificate_json::{Body, Package, Rows};
use facts::CancelType;
use first_values::FirstValues;
use indexmap::IndexMap;
use std::alloc::{AllocError, Global};
use table_json::{Function, Parameter};

/// Where a body stands: the number of its file, and the byte offset of its `func`.
#[derive(Clone, Copy, PartialEq, Eq, Hash)]
struct Place {
    file: usize,
    at: u32,
}

/// The rows of masks of bodies, by their places; of several at one place the first counts.
#[derive(Drop)]
pub struct GivenRows<'c> {
    bodies: IndexMap<Place, &'c Rows>,
}

impl<'c> GivenRows<'c> {
    fn new(alloc: Global) -> Self
        ensures { (number : ℕ) (at : ℕ) → rows_at result number at ≡ None }
    {
        GivenRows {
            bodies: IndexMap::new(alloc),
        }
    }

    /// Those of the body at that byte offset of the file of that number.
    pub fn at(&self, file: usize, at: u32) -> Option<&'c Rows>
        ensures { option_map (λ rows. rows_of rows.now) result ≡ rows_at self.now file at }
    {
        match self.bodies.get(&Place { file, at }) {
            Some(rows) => Some(*rows),
            None => None,
        }
    }

    fn insert(&mut self, body: &'c Body) -> Result<(), AllocError>
        ensures { OnOk result ((number : ℕ) (at : ℕ) → rows_at self.new number at
            ≡ or_else (rows_at self.old number at) (only_rows (body_of body.now) number at)) }
    {
        let place = Place {
            file: body.file as usize,
            at: body.at,
        };
        keep_first(&mut self.bodies, place, &body.states)
    }
}

/// The rows of these bodies.
fn given_rows<'c>(alloc: Global, bodies: &'c [Body]) -> Result<GivenRows<'c>, AllocError>
    ensures { IfOk result (λ given. (number : ℕ) (at : ℕ)
        → rows_at given number at ≡ rows_in (map body_of bodies.now) number at) }
{
    let mut given = GivenRows::new(alloc);
    for body in bodies {
        given.insert(body)?;
    }
    Ok(given)
}

/// What is claimed of a parameter: the type of the cancel function that it calls.
fn claim_of(parameter: Parameter) -> Option<CancelType>
    ensures { option_map type_view result ≡ claim_of parameter }
{
    match parameter {
        Parameter::Cancel { calls: true, .. } => Some(CancelType::Plain),
        Parameter::Cause { calls: true, .. } => Some(CancelType::WithCause),
        _ => None,
    }
}

/// What is claimed of the first of these parameters that has that position.
fn claim_at(parameters: &[Parameter], position: usize) -> Option<CancelType>
    ensures { option_map type_view result ≡ claim_at parameters.now position }
{
    for parameter in parameters {
        if parameter.position() as usize == position {
            return claim_of(*parameter);
        }
    }
    None
}

/// The parameters of functions, by the names of these; of several with one name the first counts.
#[derive(Drop)]
pub struct GivenClaims<'c> {
    functions: FirstValues<'c, &'c [Parameter]>,
}

impl<'c> GivenClaims<'c> {
    fn new(alloc: Global) -> Self
        ensures { (name : List ℕ) → params_at result name ≡ None }
    {
        GivenClaims {
            functions: FirstValues::new(alloc),
        }
    }

    /// What is claimed of the parameter at that position of the function of that name.
    pub fn of(&self, name: &str, position: usize) -> Option<CancelType>
        ensures { option_map type_view result ≡ claim_in (params_at self.now name.now) position }
    {
        match self.functions.get(name) {
            Some(parameters) => claim_at(parameters, position),
            None => None,
        }
    }

    fn insert(&mut self, function: &'c Function) -> Result<(), AllocError>
        ensures { OnOk result ((name : List ℕ) → params_at self.new name ≡ or_else (params_at self.old name)
            (only_at (entry_of function.now).name (entry_of function.now).params name)) }
    {
        self.functions
            .insert(function.name.as_str(), function.params.as_slice())
    }
}

/// What these functions are claimed to call.
fn given_claims<'c>(alloc: Global, functions: &'c [Function]) -> Result<GivenClaims<'c>, AllocError>
    ensures { IfOk result (λ given. (name : List ℕ)
        → params_at given name ≡ first_params (map entry_of functions.now) name) }
{
    let mut given = GivenClaims::new(alloc);
    for function in functions {
        given.insert(function)?;
    }
    Ok(given)
}

/// What is given for a package.
#[derive(Drop)]
pub struct GivenPackage<'c> {
    pub rows: GivenRows<'c>,
    pub claims: GivenClaims<'c>,
}

/// What is given for a package by its part of certificates, if it has one.
///
/// # Errors
///
/// Memory was refused.
pub fn given_package<'c>(
    alloc: Global,
    found: Option<&'c Package>,
) -> Result<GivenPackage<'c>, AllocError>
    ensures { IfOk result (TellsGiven (given_of (option_map (λ p. package_of p.now) found.entry))) }
{
    match found {
        Some(one) => Ok(GivenPackage {
            rows: given_rows(alloc, &one.bodies)?,
            claims: given_claims(alloc, &one.facts.functions)?,
        }),
        None => Ok(GivenPackage {
            rows: GivenRows::new(alloc),
            claims: GivenClaims::new(alloc),
        }),
    }
}
