//! The rule of the running board, and what its atomic steps do to views.
//!
//! A step's play sees the word and the number found there, and knows neither the ticket of a credit nor what the board is
//! made for. So each kind of step has a trait with what it does not see, which the proof of a call picks (`Brand`). It is
//! no value of the program: a draw and a credit are one instruction each.

ghost use Rattle.std.specs.Prelude.{ℕ, ◌≡◌, ◌≤◌};
ghost use Rattle.tile_board.specs.declared.views.Credit.{Credit};
ghost use Rattle.tile_board.specs.declared.views.TheConstants.{MOST_DRAWS};
ghost use Rattle.tile_board.specs.HandFacts.{IsHandView};
ghost use Rattle.tile_board.specs.Machine.{fresh, with_draw, with_credit, without_draws, with_all_of};
ghost use Rattle.tile_board.specs.Running.{state_of};
ghost use Rattle.tile_board.specs.Sound.{IsSound};
ghost use Rattle.tile_board.specs.BoardSteps.{IsDraw, IsCredit};

use super::views::{Credit, Limits, View};
use atomic_table::{Join, Play, Split, TableRule};
use std::marker::{Brand, PhantomData};

/// Between any two steps the words and all views are a sound state.
pub struct SoundBoard;

impl TableRule<u64, View, Limits> for SoundBoard {
    ghost holds = { λ limits s. IsSound limits (state_of s.words s.views) };

    ghost first = { λ limits. fresh limits.draws };
}

/// What the board is made for, for a draw.
pub trait Drawing {
    ghost use Rattle.tile_board.specs.declared.views.Limits.{Limits};

    ghost limits: { Limits };
}

impl Drawing for Brand {
    ghost limits = { record { tickets = 0; slots = 0; cap = 0; draws = 0 } };
}

/// A draw: the number found is drawn, and it is the next one of a sound state.
pub struct Draws<D> {
    drawing: PhantomData<D>,
}

impl<D: Drawing> Play<u64, View> for Draws<D> {
    ghost then = { λ step me found after. (after ≡ (with_draw D.limits.tickets found me.0, me.1)) × IsHandView after.0
        × ((draws : IsDraw D.limits me.0 after.0) × (draws.state.next ≡ found)) };
}

/// What the board is made for, and the credit that a step makes.
pub trait Crediting {
    ghost use Rattle.tile_board.specs.declared.views.Credit.{Credit};
    ghost use Rattle.tile_board.specs.declared.views.Limits.{Limits};

    ghost limits: { Limits };

    ghost credit: { Credit };
}

impl Crediting for Brand {
    ghost limits = { record { tickets = 0; slots = 0; cap = 0; draws = 0 } };

    ghost credit = { record { ticket = 0; slot = 0; amount = 0 } };
}

/// A credit: it joins the hand's.
pub struct Credits<C> {
    crediting: PhantomData<C>,
}

impl<C: Crediting> Play<u64, View> for Credits<C> {
    ghost then = { λ step me found after. (after ≡ (with_credit C.credit me.0, me.1)) × IsHandView after.0
        × IsCredit C.limits C.credit me.0 after.0 };
}

/// How many draws are given away.
pub trait Cutting {
    ghost draws: { ℕ };
}

impl Cutting for Brand {
    ghost draws = { 0 };
}

/// A split: a new hand has these draws and nothing else.
pub struct Cuts<C> {
    cutting: PhantomData<C>,
}

impl<C: Cutting> Split<View> for Cuts<C> {
    ghost left = { λ v. without_draws C.draws v };

    ghost right = { λ v. fresh C.draws };
}

/// A join: the one hand has all that both had.
pub struct Joins;

impl Join<View> for Joins {
    ghost both = { λ v other. with_all_of other v };

    ghost spent = { fresh 0 };
}

/// A look changes nothing, and tells what the rule says of the hand.
pub struct Looks;

impl Play<u64, View> for Looks {
    ghost then = { λ step me found after. (after ≡ me) × IsHandView after.0 × (after.0.left ≤ MOST_DRAWS) };
}
