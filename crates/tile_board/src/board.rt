ghost use Rattle.std.specs.Prelude.{ℕ, ◌≡◌, ◌≤◌, ◌<◌, ◌+◌, ◌*◌, ◌^◌, ◌==◌, ◌&&◌, if◌then◌else◌, [], ◌∷◌};
ghost use Rattle.std.specs.Prelude.{IfOk, IfSome, IfNone, Some, None, length, nat_lt, slice_index};
ghost use Rattle.std.specs.Slots.{slots_items, slots_len, IsFull};
ghost use Rattle.tile_board.specs.Closing.{HasAllDraws, AreFinal, AreAtLeast, AreSums, DrewAll};
ghost use Rattle.tile_board.specs.Counts.{Drew, times_credited};
ghost use Rattle.tile_board.specs.HandFacts.{IsHandView};
ghost use Rattle.tile_board.specs.Machine.{fresh, with_draw, with_credit, without_draws, with_all_of, MayCredit};
ghost use Rattle.tile_board.specs.BoardLimits.{AreInRange};
ghost use Rattle.tile_board.specs.BoardSteps.{IsDraw, IsCredit};

use super::rule::{Crediting, Credits, Cuts, Cutting, Drawing, Draws, Joins, Looks, SoundBoard};
use super::views::{Credit, Limits, MOST_DRAWS, MOST_SLOTS, View};
use atomic_table::{Closed, Seat, Table};
use lists::NoMemory;
use std::alloc::Global;
use std::marker::Brand;

/// Tickets and totals that threads share. Contracts see what it is made for (`limits_of`) and which hands are its own
/// (`BelongsTo`). It takes its memory as it is made, and no call but `close` takes more.
#[derive(Drop)]
pub struct Board {
    table: Table<u64, View, Limits, SoundBoard, Global>,
    limits: Limits,
    ghost key: { limits ≡ table.shared.key },
    ghost words: { table.shared.table_id.words ≡ limits.slots + 1 },
    ghost no_places: { table.shared.table_id.slots ≡ 0 },
    ghost ranges: { AreInRange limits },
}

/// What one thread draws and credits with. Contracts see what it has done and may still do (`view_of`): its tickets, its
/// credits, and how many draws it has made and has left. At run time it is the last number alone.
///
/// A hand that is dropped keeps what it has, so no other hand has all draws any more, unless it had none.
#[derive(Drop)]
pub struct Hand {
    seat: Seat<u64, View>,
    left: u64,
    ghost counted: { left ≡ seat.me.0.left },
    ghost no_places: { seat.me.1 ≡ [] },
    pub ghost facts: { IsHandView seat.me.0 },
}

impl Hand {
    ghost use Rattle.tile_board.specs.Hands.{view_of};

    /// How many draws the hand has left.
    pub fn left(&self) -> u64
        ensures { result ≡ (view_of self.now).left }
    {
        self.left
    }
}

impl Board {
    ghost use Rattle.tile_board.specs.Hands.{limits_of, view_of, BelongsTo};

    /// A board of so many tickets and slots, whose credits are at most `cap` and whose hands draw at most so often, and
    /// its first hand, which has all draws. All totals are 0. The only error is that no memory is left.
    pub fn new(
        alloc: Global,
        tickets: u64,
        slots: u32,
        cap: u64,
        draws: u64,
    ) -> Result<(Board, Hand), NoMemory>
        requires some_slots { 1 ≤ slots }
        requires few_slots { slots ≤ MOST_SLOTS }
        requires totals_fit { tickets * cap < 2 ^ 63 }
        requires some_draws { 1 ≤ draws }
        requires few_draws { draws ≤ MOST_DRAWS }
        ensures limits { IfOk result (λ made. limits_of made.0 ≡
            record { tickets = tickets; slots = slots; cap = cap; draws = draws }) }
        ensures belongs { IfOk result (λ made. BelongsTo made.0 made.1) }
        ensures opening { IfOk result (λ made. view_of made.1 ≡ fresh draws) }
    {
        let limits = Limits {
            tickets,
            slots,
            cap,
            draws,
        };
        let words = vec![in alloc; 0; slots as usize + 1]?;
        let (table, seat) = Table::of_words(alloc, words.as_slice(), &limits)?;
        Ok((Board { table, limits }, Hand { seat, left: draws }))
    }

    /// Draws the next number, at one atomic step, and uses one of the hand's draws up. A number below the count of tickets
    /// is a ticket, which no other hand has. `None` comes where the number is none, so that all tickets were drawn.
    pub fn draw(&self, hand: &mut Hand) -> Option<u64>
        requires belongs { BelongsTo self.now hand.old }
        requires draw_left { 0 < (view_of hand.old).left }
        ensures belongs { BelongsTo self.now hand.new }
        ensures some { IfSome result (λ ticket. (ticket < (limits_of self.now).tickets)
            × (view_of hand.new ≡ with_draw (limits_of self.now).tickets ticket (view_of hand.old))) }
        ensures none { IfNone result ((number : ℕ) × ((limits_of self.now).tickets ≤ number)
            × (view_of hand.new ≡ with_draw (limits_of self.now).tickets number (view_of hand.old))) }
        // It is the machine's event, in a sound state, and the number drawn is the next one there.
        ensures step { (step : IsDraw (limits_of self.now) (view_of hand.old) (view_of hand.new))
            × (result ≡ (if nat_lt step.state.next (limits_of self.now).tickets then Some step.state.next else None)) }
        ensures drawn { IfSome result (Drew (view_of hand.new)) }
        ensures uncredited { IfSome result (λ ticket. (slot : ℕ) → times_credited (view_of hand.new) ticket slot ≡ 0) }
    {
        let number = self.draw_number::<Brand>(&mut hand.seat);
        hand.left -= 1;
        if number < self.limits.tickets {
            Some(number)
        } else {
            None
        }
    }

    /// Adds the amount to the slot's total on account of the ticket, at one atomic step. The hand drew the ticket and has
    /// not credited it to this slot before.
    pub fn credit(&self, hand: &mut Hand, ticket: u64, slot: u32, amount: u64)
        requires belongs { BelongsTo self.now hand.old }
        requires drawn { Drew (view_of hand.old) ticket }
        requires first { times_credited (view_of hand.old) ticket slot ≡ 0 }
        requires slot { slot < (limits_of self.now).slots }
        requires amount { amount ≤ (limits_of self.now).cap }
        ensures belongs { BelongsTo self.now hand.new }
        ensures credited { view_of hand.new ≡
            with_credit (record { ticket = ticket; slot = slot; amount = amount }) (view_of hand.old) }
        // It is the machine's event, in a sound state, which adds the amount to the slot's total.
        ensures step { IsCredit (limits_of self.now) (record { ticket = ticket; slot = slot; amount = amount })
            (view_of hand.old) (view_of hand.new) }
        // It counts at its own ticket and slot alone.
        ensures counted { (t s : ℕ) → times_credited (view_of hand.new) t s ≡ times_credited (view_of hand.old) t s
            + (if (ticket == t) && (slot == s) then 1 else 0) }
    {
        let credit = Credit {
            ticket,
            slot,
            amount,
        };
        self.add::<Brand>(&mut hand.seat, credit);
    }

    /// Moves so many of the hand's draws to a new hand, which has nothing else.
    pub fn split(&self, hand: &mut Hand, draws: u64) -> Hand
        requires belongs { BelongsTo self.now hand.old }
        requires enough { draws ≤ (view_of hand.old).left }
        ensures belongs { BelongsTo self.now hand.new }
        ensures new_belongs { BelongsTo self.now result }
        ensures kept { view_of hand.new ≡ without_draws draws (view_of hand.old) }
        ensures given { view_of result ≡ fresh draws }
    {
        let seat = self.cut::<Brand>(&mut hand.seat, draws);
        hand.left -= draws;
        Hand { seat, left: draws }
    }

    /// Gives all that the other hand has to the first: tickets, credits, and draws made and left.
    pub fn join(&self, hand: &mut Hand, other: Hand)
        requires belongs { BelongsTo self.now hand.old }
        requires other_belongs { BelongsTo self.now other }
        ensures belongs { BelongsTo self.now hand.new }
        ensures joined { view_of hand.new ≡ with_all_of (view_of other) (view_of hand.old) }
    {
        let Hand { seat, left } = other;
        self.merge(&mut hand.seat, seat);
        hand.left += left;
    }

    /// The totals, one for each slot. The board and the hand are gone also where no memory is left.
    ///
    /// They are those of a sound state of the machine in which this hand is one of the hands, so each is at least what this
    /// hand added. Where this hand has all draws of the board, no other hand has credited, and each is exactly what this hand
    /// added. Else no clause says that the other hands of the state are those of the board: that the credits of a hand that
    /// was dropped count is tested.
    pub fn close(self, alloc: Global, hand: Hand) -> Result<Vec<u64>, NoMemory>
        requires belongs { BelongsTo self hand }
        ensures one_each { IfOk result (λ totals. length totals.items ≡ (limits_of self).slots) }
        // In that state each total is the sum of the credits of all hands, of which this one is one.
        ensures sound { IfOk result (λ totals. AreFinal (limits_of self) (view_of hand) totals.items) }
        ensures at_least { IfOk result (λ totals. AreAtLeast (limits_of self) (view_of hand) totals.items) }
        ensures exact { IfOk result (λ totals. HasAllDraws (limits_of self) (view_of hand) →
            AreSums (limits_of self) (view_of hand) totals.items) }
        // More draws than tickets: the hand was told that none are left.
        ensures all_tickets { IfOk result (λ totals. HasAllDraws (limits_of self) (view_of hand) →
            length (view_of hand).tickets < (view_of hand).made → DrewAll (limits_of self) (view_of hand)) }
    {
        let mut totals = vec![in alloc; 0; self.limits.slots as usize]?;
        let Board { table, limits: _ } = self;
        let Hand { seat, left: _ } = hand;
        let closed = table.close_with(seat);
        read_totals(&closed, totals.as_mut_slice());
        closed.free();
        Ok(totals)
    }

    // The one step of a draw.
    fn draw_number<D: Drawing>(&self, seat: &mut Seat<u64, View>) -> u64
        requires limits { D.limits ≡ self.now.limits }
        requires belongs { seat.old.table_id ≡ self.now.table.shared.table_id }
        requires left { 0 < seat.old.me.0.left }
        ensures belongs { seat.new.table_id ≡ seat.old.table_id }
        ensures view { seat.new.me ≡ (with_draw D.limits.tickets result seat.old.me.0, seat.old.me.1) }
        ensures facts { IsHandView seat.new.me.0 }
        ensures step { (step : IsDraw D.limits seat.old.me.0 seat.new.me.0) × (step.state.next ≡ result) }
    {
        self.table.shared.fetch_add::<Draws<D>>(seat, 0, 1)
    }

    // The one step of a credit.
    fn add<C: Crediting>(&self, seat: &mut Seat<u64, View>, credit: Credit)
        requires limits { C.limits ≡ self.now.limits }
        requires picked { C.credit ≡ credit }
        requires belongs { seat.old.table_id ≡ self.now.table.shared.table_id }
        requires may { MayCredit self.now.limits seat.old.me.0 credit }
        ensures belongs { seat.new.table_id ≡ seat.old.table_id }
        ensures view { seat.new.me ≡ (with_credit C.credit seat.old.me.0, seat.old.me.1) }
        ensures facts { IsHandView seat.new.me.0 }
        ensures step { IsCredit C.limits C.credit seat.old.me.0 seat.new.me.0 }
    {
        let word = credit.slot as usize + 1;
        self.table
            .shared
            .fetch_add::<Credits<C>>(seat, word, credit.amount);
    }

    // The one step of a split.
    fn cut<C: Cutting>(&self, seat: &mut Seat<u64, View>, draws: u64) -> Seat<u64, View>
        requires picked { C.draws ≡ draws }
        requires belongs { seat.old.table_id ≡ self.now.table.shared.table_id }
        requires enough { draws ≤ seat.old.me.0.left }
        ensures belongs { seat.new.table_id ≡ seat.old.table_id }
        ensures new_belongs { result.table_id ≡ seat.old.table_id }
        ensures kept { seat.new.me ≡ (without_draws C.draws seat.old.me.0, seat.old.me.1) }
        ensures given { result.me ≡ (fresh C.draws, []) }
    {
        self.table.shared.split_seat::<Cuts<C>>(seat)
    }

    // The step of a join, and a look that tells that the tickets of both differ.
    fn merge(&self, seat: &mut Seat<u64, View>, other: Seat<u64, View>)
        requires belongs { seat.old.table_id ≡ self.now.table.shared.table_id }
        requires other_belongs { other.table_id ≡ self.now.table.shared.table_id }
        requires no_places { other.me.1 ≡ [] }
        ensures belongs { seat.new.table_id ≡ seat.old.table_id }
        ensures view { seat.new.me ≡ (with_all_of other.me.0 seat.old.me.0, seat.old.me.1) }
        ensures facts { IsHandView seat.new.me.0 }
        ensures few_left { seat.new.me.0.left ≤ MOST_DRAWS }
    {
        self.table.shared.join_seat::<Joins>(seat, other);
        self.table.shared.load::<Looks>(seat, 0);
    }
}

// Copies the words behind the first.
fn read_totals(closed: &Closed<u64, Global>, totals: &mut [u64])
    requires words { slots_len closed.now.words ≡ length totals.old + 1 }
    requires full { IsFull closed.now.words }
    ensures { (slot : ℕ) → slot < length totals.new →
        slice_index totals.new slot ≡ slice_index (slots_items closed.now.words) (slot + 1) }
{
    for slot in 0..totals.len() {
        totals[slot] = closed.word(slot + 1);
    }
}
