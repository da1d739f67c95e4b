//! Sets of classes of all variables of a body, packed into words. No function here takes memory.

ghost use Rattle.std.specs.Prelude.{◌≡◌, ◌↔◌, ◌<◌, ◌≤◌, ◌+◌, ◌*◌, ◌^◌, ◌||◌, ◌&&◌, ℕ, Some, None, true, false, if◌then◌else◌, nat_lt, bit_or, length, IfSome, IsTrue};
ghost use Rattle.facts.specs.FactViews.{kind_view};
ghost use Rattle.bodies.specs.BitSteps.{cancel_step, group_step};
ghost use Rattle.bodies.specs.Masks.{is_set};
ghost use Rattle.bodies.specs.MaskTests.{has_known_bits};
ghost use Rattle.bodies.specs.States.{has_bit, has_place, first_bit, mask_bits, Sets, Applies, Fit};
ghost use Rattle.bodies.specs.StateWords.{room, IsWithinWord, StaysBelow, Changes, ChangesFirst};
ghost use Rattle.tracked_rows.specs.EventViews.{event_view};
ghost use Rattle.tree.specs.declared.edition.Edition.TheVariants.{Second};

use crate::bits::{CANCEL_CLASSES, GROUP_CLASSES};
use crate::changes::Change;
use crate::images::{CancelChange, Step, image_of};
use crate::masks::has_known_bits;
use crate::promises::Promises;
use facts::VariableKind;
use meaning::{MOST_CANCELS, MOST_GROUPS};
use tracked_rows::Event;
use tree::Edition;

/// How many bits a word has.
pub const WORD_BITS: usize = 64;

/// How many bits the mask of a cancel variable has: one for each class.
pub const CANCEL_BITS: usize = CANCEL_CLASSES;

/// The first bit of the cancel variables' masks.
pub const CANCELS_BEGIN: usize = 0;

/// The first bit of the groups' masks, which stand behind those of 48 cancel variables.
pub const GROUPS_BEGIN: usize = 768;

/// How many words a state has: twelve for the masks of cancel variables, and one for those of groups.
pub const STATE_WORDS: usize = 13;

/// The variables whose classes a state has, by their numbers.
#[derive(Clone, Copy)]
pub struct StateVariables<'v> {
    /// The cancel variables, in their order.
    pub cancels: &'v [u32],
    /// The groups, in their order.
    pub groups: &'v [u32],
    /// The groups in which a cancel variable may be pending, which have bits.
    pub pending: &'v [u32],
}

/// A set of classes of each of a body's variables: at most 48 cancel variables and 12 groups.
#[derive(Clone, Copy)]
pub struct State {
    pub words: [u64; STATE_WORDS],
}

/// Where the mask of the variable of that kind and place begins, if a state has a place for it.
fn first_bit(kind: VariableKind, place: usize) -> Option<usize>
    ensures place { result ≡ (if has_place (kind_view kind) place then Some (first_bit (kind_view kind) place)
        else None) }
    ensures within { IfSome result (λ first. first < WORD_BITS * STATE_WORDS) }
    ensures in_word { IfSome result (λ first. IsWithinWord first (mask_bits (kind_view kind))) }
{
    match kind {
        VariableKind::Cancel => {
            if place < MOST_CANCELS {
                return Some(CANCELS_BEGIN + place * CANCEL_BITS);
            }
        }
        VariableKind::Group => {
            if place < MOST_GROUPS {
                return Some(GROUPS_BEGIN + place * GROUP_CLASSES);
            }
        }
    }
    None
}

/// How many bits the mask of a variable has.
fn mask_bits(kind: VariableKind) -> usize
    ensures value { result ≡ mask_bits (kind_view kind) }
    ensures small { result ≤ 16 }
{
    match kind {
        VariableKind::Cancel => CANCEL_BITS,
        VariableKind::Group => GROUP_CLASSES,
    }
}

/// Whether the first word has each bit that the other has.
fn has_all(word: u64, other: u64) -> bool
    ensures { IsTrue result ↔ ((bit : ℕ) → is_set other bit ≡ true → is_set word bit ≡ true) }
{
    word | other == word
}

/// What one of the words has.
fn union(word: u64, other: u64) -> u64
    ensures both { result ≡ bit_or word other }
    ensures fits { result < 2 ^ 64 }
{
    word | other
}

impl State {
    /// No class of any variable.
    pub fn empty() -> State
        ensures { (bit : ℕ) → has_bit result.words bit ≡ false }
    {
        State {
            words: [0; STATE_WORDS],
        }
    }

    /// Whether the bit of that number is set.
    pub fn has_bit(&self, bit: usize) -> bool
        ensures { result ≡ has_bit self.now.words bit }
    {
        let place = bit / WORD_BITS;
        place < STATE_WORDS && (self.words[place] >> (bit % WORD_BITS)) & 1 == 1
    }

    /// Adds what the other state has. Whether that is more.
    pub fn join(&mut self, other: &State) -> bool
        ensures joined { (bit : ℕ) → has_bit self.new.words bit
            ≡ (has_bit self.old.words bit || has_bit other.now.words bit) }
        ensures same { result ≡ false → self.new.words ≡ self.old.words }
        ensures more { result ≡ true → room self.new.words < room self.old.words }
    {
        let mut grows = false;
        for place in 0..STATE_WORDS {
            let word = self.words[place];
            let both = union(word, other.words[place]);
            if both != word {
                self.words[place] = both;
                grows = true;
            }
        }
        grows
    }

    /// Whether the other state has all that this one has.
    pub fn is_within(&self, other: &State) -> bool
        ensures { IsTrue result ↔ ((bit : ℕ) → has_bit self.now.words bit ≡ true
            → has_bit other.now.words bit ≡ true) }
    {
        for place in 0..STATE_WORDS {
            if !has_all(other.words[place], self.words[place]) {
                return false;
            }
        }
        true
    }

    /// So many bits from that one on, which lie in one word.
    fn bits_from(&self, first: usize, count: usize) -> u16
        requires within { first < WORD_BITS * STATE_WORDS }
        requires in_word { IsWithinWord first count }
        requires small { count ≤ 16 }
        ensures { (bit : ℕ) → is_set result bit ≡ (nat_lt bit count && has_bit self.now.words (first + bit)) }
    {
        ((self.words[first / WORD_BITS] >> (first % WORD_BITS)) & ((1 << count) - 1)) as u16
    }

    /// Sets so many bits from that one on, which lie in one word, to these.
    fn set_bits(&mut self, first: usize, count: usize, bits: u16)
        requires within { first < WORD_BITS * STATE_WORDS }
        requires in_word { IsWithinWord first count }
        requires small { count ≤ 16 }
        requires fits { bits < 2 ^ count }
        ensures { Sets first count bits self.old.words self.new.words }
    {
        let place = first / WORD_BITS;
        let shift = first % WORD_BITS;
        let ones: u64 = ((1 << count) - 1) << shift;
        self.words[place] = (self.words[place] & !ones) | ((bits as u64) << shift);
    }

    /// The mask of the variable of that kind, by its place among those of its kind; zero where the state has none.
    pub fn mask(&self, kind: VariableKind, place: usize) -> u16
        ensures { (bit : ℕ) → is_set result bit ≡ (has_place (kind_view kind) place && (nat_lt bit
            (mask_bits (kind_view kind)) && has_bit self.now.words (first_bit (kind_view kind) place + bit))) }
    {
        match first_bit(kind, place) {
            Some(first) => self.bits_from(first, mask_bits(kind)),
            None => 0,
        }
    }

    /// Sets the mask of that variable. It answers false, and nothing changes, where the state has no place for it, or
    /// a bit is set that stands for no class in any edition.
    pub fn set_mask(&mut self, kind: VariableKind, place: usize, mask: u16) -> bool
        ensures taken { result ≡ (has_place (kind_view kind) place && has_known_bits Second (kind_view kind) mask) }
        ensures sets { result ≡ true → Sets (first_bit (kind_view kind) place) (mask_bits (kind_view kind)) mask
            self.old.words self.new.words }
        ensures kept { result ≡ false → self.new.words ≡ self.old.words }
    {
        if !has_known_bits(Edition::Second, kind, mask) {
            return false;
        }
        match first_bit(kind, place) {
            Some(first) => {
                self.set_bits(first, mask_bits(kind), mask);
                true
            }
            None => false,
        }
    }

    /// Changes so many bits from that one on, which lie in one word.
    fn change<S: Step>(&mut self, first: usize, count: usize, steps: &S)
        requires within { first < WORD_BITS * STATE_WORDS }
        requires in_word { IsWithinWord first count }
        requires small { count ≤ 16 }
        requires stays { StaysBelow count (S.step steps.now) }
        ensures { Changes first count (S.step steps.now) self.old.words self.new.words }
    {
        let before = self.bits_from(first, count);
        let after = image_of(steps, before, count);
        self.set_bits(first, count, after);
    }

    /// Changes the masks of the cancel variables.
    fn apply_cancels<P: Promises>(
        &mut self,
        promises: &P,
        event: &Event<'_>,
        variables: &StateVariables<'_>,
    )
        requires fits { Fit variables.now }
        ensures { ChangesFirst CANCELS_BEGIN CANCEL_BITS (λ number. cancel_step (P.promises promises.now) number
            variables.now.pending.now (event_view event.now)) variables.now.cancels.now
            (length variables.now.cancels.now) self.old.words self.new.words }
    {
        for (place, number) in variables.cancels.iter().enumerate() {
            let change = Change {
                promises: &*promises,
                variable: *number,
                event: Some(event),
            };
            let steps = CancelChange {
                change,
                groups: variables.pending,
            };
            self.change(CANCELS_BEGIN + place * CANCEL_BITS, CANCEL_BITS, &steps);
        }
    }

    /// Changes the masks of the groups.
    fn apply_groups<P: Promises>(
        &mut self,
        promises: &P,
        event: &Event<'_>,
        variables: &StateVariables<'_>,
    )
        requires fits { Fit variables.now }
        ensures { ChangesFirst GROUPS_BEGIN GROUP_CLASSES (λ number. group_step (P.promises promises.now) number
            (event_view event.now)) variables.now.groups.now (length variables.now.groups.now) self.old.words
            self.new.words }
    {
        for (place, number) in variables.groups.iter().enumerate() {
            let steps = Change {
                promises: &*promises,
                variable: *number,
                event: Some(event),
            };
            self.change(GROUPS_BEGIN + place * GROUP_CLASSES, GROUP_CLASSES, &steps);
        }
    }

    /// Changes the mask of each variable by the event: it has what the event makes of the classes that it had.
    pub fn apply<P: Promises>(
        &mut self,
        promises: &P,
        event: &Event<'_>,
        variables: &StateVariables<'_>,
    )
        requires fits { Fit variables.now }
        ensures { Applies (P.promises promises.now) (event_view event.now) variables.now self.old.words self.new.words }
    {
        self.apply_cancels(promises, event, variables);
        self.apply_groups(promises, event, variables);
    }
}
