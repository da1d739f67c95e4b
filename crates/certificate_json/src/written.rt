//! The text of certificates.

ghost use Rattle.std.specs.Prelude.{◌≡◌, IfOk, map, string_bytes};
ghost use Rattle.std.specs.List.{AllByRecursion, AllZip};
ghost use Rattle.serde_json.specs.View.{view};
ghost use Rattle.table_json.specs.TableValues.{whole};
ghost use Rattle.table_json.specs.WrittenTables.{IsOrdered};
ghost use Rattle.certificate_json.specs.Certificates.{body_of, by_place, package_of, packages_of, place_of};
ghost use Rattle.certificate_json.specs.CertificateValues.{body_value, certificates_with, masks_value, package_with};
ghost use Rattle.certificate_json.specs.WrittenCertificates.{IsWrittenText};
ghost use Rattle.certificate_json.specs.Parts.{AllSmall, HasBodyFits, IsPackageText, IsWholeText};

use crate::certificates::{Body, Certificates, Package};
use serde_json::{Value, json};
use std::alloc::{AllocError, Global};
use table_json::{VERSION, as_written, function_values};

// Bodies

fn bodies_to_write(alloc: Global, bodies: &[Body]) -> Result<Vec<&Body>, AllocError>
    ensures { IfOk result (λ listed. map (λ b. body_of b.now) listed.items ≡ map body_of bodies.now) }
{
    let mut listed = Vec::new(alloc);
    for body in bodies {
        listed.push(body)?;
    }
    Ok(listed)
}

/// The bodies by file and offset.
fn bodies_by_place(alloc: Global, bodies: &[Body]) -> Result<Vec<&Body>, AllocError>
    ensures { IfOk result (λ ordered. IsOrdered by_place place_of (map body_of bodies.now)
        (map (λ b. body_of b.now) ordered.items)) }
{
    let mut ordered = bodies_to_write(alloc, bodies)?;
    ordered.sort_unstable_by_key(|body| body.place());
    Ok(ordered)
}

fn mask_values(alloc: Global, masks: &[u16]) -> Result<Vec<Value>, AllocError>
    ensures values { IfOk result (λ values. map view values.items ≡ map whole masks.now) }
    ensures small { IfOk result (λ values. AllSmall masks.now) }
{
    let mut values = Vec::new(alloc);
    for mask in masks {
        values.push(Value::from(*mask))?;
    }
    Ok(values)
}

/// The masks of one node as JSON.
fn masks_value(alloc: Global, masks: &Vec<u16>) -> Result<Value, AllocError>
    ensures value { IfOk result (λ value. view value ≡ masks_value masks.now.items) }
    ensures small { IfOk result (λ value. AllSmall masks.now.items) }
{
    Ok(Value::Array(mask_values(alloc, masks)?))
}

fn state_values(alloc: Global, states: &[Vec<u16>]) -> Result<Vec<Value>, AllocError>
    ensures values { IfOk result
        (λ values. map view values.items ≡ map masks_value (map (λ masks. masks.items) states.now)) }
    ensures small { IfOk result (λ values. AllByRecursion AllSmall (map (λ masks. masks.items) states.now)) }
{
    let mut values = Vec::new(alloc);
    for masks in states {
        values.push(masks_value(alloc, masks)?)?;
    }
    Ok(values)
}

fn body_value(alloc: Global, body: &Body) -> Result<Value, AllocError>
    ensures value { IfOk result (λ value. view value ≡ body_value (body_of body.now)) }
    ensures fits { IfOk result (λ value. HasBodyFits (body_of body.now)) }
{
    let rows = body.states.to_lists(alloc)?;
    let states = Value::Array(state_values(alloc, &rows)?);
    json!(in alloc; {"at": body.at, "file": body.file, "states": states})
}

fn body_values(alloc: Global, bodies: &[&Body]) -> Result<Vec<Value>, AllocError>
    ensures values { IfOk result
        (λ values. map view values.items ≡ map body_value (map (λ b. body_of b.now) bodies.now)) }
    ensures fit { IfOk result (λ values. AllByRecursion HasBodyFits (map (λ b. body_of b.now) bodies.now)) }
{
    let mut values = Vec::new(alloc);
    for body in bodies {
        values.push(body_value(alloc, *body)?)?;
    }
    Ok(values)
}

// Packages

/// The object of a package with these bodies and facts.
fn package_object(
    alloc: Global,
    path: &String,
    bodies: Vec<Value>,
    facts: Vec<Value>,
) -> Result<Value, AllocError>
    ensures { IfOk result (λ value. view value
        ≡ package_with (string_bytes path.now) (map view bodies.items) (map view facts.items)) }
{
    let bodies = Value::Array(bodies);
    let facts = Value::Array(facts);
    json!(in alloc; {"bodies": bodies, "facts": facts, "path": path})
}

/// What is written of a package, as JSON.
fn package_value(alloc: Global, entry: &Package) -> Result<Value, AllocError>
    ensures { IfOk result (λ value. IsPackageText (package_of entry.now) (view value)) }
{
    let ordered = bodies_by_place(alloc, &entry.bodies)?;
    let facts = as_written(alloc, &entry.facts)?;
    let bodies = body_values(alloc, &ordered)?;
    let functions = function_values(alloc, &facts.functions)?;
    package_object(alloc, &entry.path, bodies, functions)
}

fn package_values(alloc: Global, packages: &[Package]) -> Result<Vec<Value>, AllocError>
    ensures { IfOk result
        (λ values. AllZip IsPackageText (map package_of packages.now) (map view values.items)) }
{
    let mut values = Vec::new(alloc);
    for entry in packages {
        values.push(package_value(alloc, entry)?)?;
    }
    Ok(values)
}

/// The object of certificates with these packages.
fn certificates_object(alloc: Global, packages: Vec<Value>) -> Result<Value, AllocError>
    ensures { IfOk result (λ value. view value ≡ certificates_with 2 (map view packages.items)) }
{
    let packages = Value::Array(packages);
    json!(in alloc; {"packages": packages, "version": VERSION})
}

/// What is written of certificates, as JSON.
fn certificates_value(alloc: Global, certificates: &Certificates) -> Result<Value, AllocError>
    ensures { IfOk result (λ value. IsWholeText (packages_of certificates.now) (view value)) }
{
    let packages = package_values(alloc, &certificates.packages)?;
    certificates_object(alloc, packages)
}

/// The text of certificates: compact JSON with its keys in the order of their bytes, always in version 2. The packages
/// stand as they do in the certificates, the bodies of each by file and offset, and its facts as those of a table:
/// functions without positions are left out, the others stand in the order of their names, and each has its positions
/// in their order. The text of certificates in order reads back as these.
///
/// # Errors
///
/// Memory was refused.
pub fn to_json(alloc: Global, certificates: &Certificates) -> Result<String, AllocError>
    ensures { IfOk result (λ text. IsWrittenText (packages_of certificates.now) (string_bytes text)) }
{
    certificates_value(alloc, certificates)?.to_string(alloc)
}
