//! Bodies as their certificates are read.

ghost use Rattle.std.specs.Prelude.{◌≡◌, ◌++◌, ◌-◌, IfOk, OnOk, length, map};
ghost use Rattle.checker.specs.Certificates.{groups_with_bits, masks_in, spare};
ghost use Rattle.checker.specs.CertificateTests.{have_places, mask_in};
ghost use Rattle.checker.specs.LaidOutViews.{row_of, states_view, with_row, RowsOfNodes, LaysOut, masks_of};
ghost use Rattle.checker.specs.Loaded.{number_if, numbers_of};
ghost use Rattle.meaning.specs.FunctionFacts.{cancel, group};
ghost use Rattle.meaning.specs.declared.TheConstants.{MOST_GROUPS};
ghost use Rattle.events.specs.VariableViews.{variable_view};

use bodies::BodyGraph;
use events::Variable;
use facts::VariableKind;
use flow::NodePlace;
use meaning::{MOST_CANCELS, MOST_GROUPS};
use std::alloc::{AllocError, Global};
use tracked_rows::Event;
use tree::Edition;

/// The numbers of the variables of a body, by their kinds, in their order.
#[derive(Drop)]
pub struct Numbers {
    pub cancels: Vec<u32>,
    pub groups: Vec<u32>,
}

/// A body, where the rows of its certificates stand, and for which groups these have bits.
#[derive(Drop)]
pub struct LaidOut<'k, 'e, 'a> {
    /// The edition of the rules by which its file is judged: the first has no bit for what is kept in an object.
    pub edition: Edition,
    pub variables: &'k [Variable<'a>],
    pub kept: &'k BodyGraph<'e, 'a>,
    /// For each node of the graph its row, if it stands in the order.
    pub rows: Vec<Option<usize>>,
    pub numbers: Numbers,
    /// The groups that have bits: the body's, and up to twelve that it has not.
    pub groups: Vec<u32>,
    /// A return, which changes no class. It takes the place of what a node does that does nothing to variables.
    pub nothing: Event<'a>,
}

/// The node has the row, unless it has one.
fn set_row(rows: &mut Vec<Option<usize>>, node: usize, row: usize)
    ensures { rows.new.items ≡ with_row node row rows.old.items }
{
    if node < rows.len() && rows[node].is_none() {
        rows[node] = Some(row);
    }
}

/// For each of so many nodes the first row in which it stands in the order.
fn rows_of_nodes(
    alloc: Global,
    nodes: usize,
    order: &[NodePlace],
) -> Result<Vec<Option<usize>>, AllocError>
    ensures { IfOk result (λ rows. RowsOfNodes nodes order.now rows.items) }
{
    let mut rows: Vec<Option<usize>> = vec![in alloc; None; nodes]?;
    for (row, place) in order.iter().enumerate() {
        set_row(&mut rows, place.node, row);
    }
    Ok(rows)
}

/// Adds the number of the variable to those of its kind.
fn add_number(
    cancels: &mut Vec<u32>,
    groups: &mut Vec<u32>,
    variable: Variable<'_>,
) -> Result<(), AllocError>
    ensures cancels { OnOk result (cancels.new.items ≡ cancels.old.items ++ number_if cancel
        (variable_view variable.entry).kind (variable_view variable.entry).number) }
    ensures groups { OnOk result (groups.new.items ≡ groups.old.items ++ number_if group
        (variable_view variable.entry).kind (variable_view variable.entry).number) }
{
    match variable.kind {
        VariableKind::Cancel => cancels.push(variable.number)?,
        VariableKind::Group => groups.push(variable.number)?,
    }
    Ok(())
}

/// The numbers of the variables, by their kinds, in their order.
fn numbers_of(alloc: Global, variables: &[Variable<'_>]) -> Result<Numbers, AllocError>
    ensures cancels { IfOk result (λ numbers. numbers.cancels.items ≡ numbers_of cancel
        (map variable_view variables.now)) }
    ensures groups { IfOk result (λ numbers. numbers.groups.items ≡ numbers_of group
        (map variable_view variables.now)) }
{
    let mut cancels = Vec::new(alloc);
    let mut groups = Vec::new(alloc);
    for variable in variables {
        add_number(&mut cancels, &mut groups, *variable)?;
    }
    Ok(Numbers { cancels, groups })
}

/// The groups that have bits: these of the body, and up to twelve that it has not.
fn groups_with_bits(alloc: Global, own: &[u32]) -> Result<Vec<u32>, AllocError>
    ensures { IfOk result (λ groups. groups.items ≡ own.now ++ spare (MOST_GROUPS - length own.now)) }
{
    let mut groups = Vec::new(alloc);
    groups.extend_from_slice(own)?;
    let mut spare = MOST_GROUPS.saturating_sub(own.len());
    while spare > 0 {
        spare -= 1;
        groups.push(u32::MAX - spare as u32)?;
    }
    Ok(groups)
}

/// The groups that have bits in certificates of a body of these variables.
///
/// # Errors
///
/// Memory was refused.
pub fn groups_of_bits(alloc: Global, variables: &[Variable<'_>]) -> Result<Vec<u32>, AllocError>
    ensures { IfOk result (λ groups. groups.items ≡ groups_with_bits (map variable_view variables.now)) }
{
    let numbers = numbers_of(alloc, variables)?;
    groups_with_bits(alloc, &numbers.groups)
}

/// Lays out a body of these variables and that graph, in a file that is judged by that edition.
///
/// # Errors
///
/// Memory was refused.
pub fn lay_out<'k, 'e, 'a>(
    alloc: Global,
    edition: Edition,
    variables: &'k [Variable<'a>],
    kept: &'k BodyGraph<'e, 'a>,
) -> Result<LaidOut<'k, 'e, 'a>, AllocError>
    ensures { IfOk result (λ laid_out. LaysOut edition variables.now kept.now laid_out) }
{
    let rows = rows_of_nodes(alloc, kept.graph.nodes.len(), &kept.order)?;
    let numbers = numbers_of(alloc, variables)?;
    let groups = groups_with_bits(alloc, &numbers.groups)?;
    let nothing = Event::Return {
        handed: Vec::new(alloc),
    };
    Ok(LaidOut {
        edition,
        variables,
        kept,
        rows,
        numbers,
        groups,
        nothing,
    })
}

/// The masks at the node; none where it has no row.
pub fn masks_at<'s>(rows: &[Option<usize>], states: &'s [Vec<u16>], node: usize) -> &'s [u16]
    ensures { result.now ≡ masks_in (states_view states.now) (row_of rows.now node) }
{
    match rows.get(node) {
        Some(Some(row)) => match states.get(*row) {
            Some(masks) => masks,
            None => &[],
        },
        _ => &[],
    }
}

impl LaidOut<'_, '_, '_> {
    /// Whether states have places for all variables, and bits for the groups.
    pub fn has_places(&self) -> bool
        ensures { result ≡ have_places self.now.numbers.cancels.items self.now.numbers.groups.items
            self.now.groups.items }
    {
        self.numbers.cancels.len() <= MOST_CANCELS
            && self.numbers.groups.len() <= MOST_GROUPS
            && self.groups.len() <= MOST_GROUPS
    }

    /// The masks at the node; none where it has no row.
    pub fn masks_at<'s>(&self, states: &'s [Vec<u16>], node: usize) -> &'s [u16]
        ensures { result.now ≡ masks_of self.now states.now node }
    {
        masks_at(&self.rows, states, node)
    }
}

/// The mask of the variable at that place; zero where there is none.
pub fn mask_in(masks: &[u16], place: usize) -> u16
    ensures { result ≡ mask_in masks.now place }
{
    match masks.get(place) {
        Some(mask) => *mask,
        None => 0,
    }
}
