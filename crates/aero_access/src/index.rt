//! What the open blocks lead to, by the clocks that are passed in. No clock is changed here.
ghost use Rattle.std.specs.Prelude.{◌≡◌, ◌≢◌, ◌<◌, ◌==◌, ◌||◌, ◌&&◌, ◌+◌, ℕ, true, false, nat_lt, not, max, if◌then◌else◌, length, Some, None, slice_get, OnOk, IfOk, [], vec_len, ◌≤◌, ◌^◌, filter};
ghost use Rattle.aero_clock.specs.Numbers.{number_at, IsZero, Lists};
ghost use Rattle.aero_access.specs.Led.{leads, IsOfBegin, times, led_at, block_number, has_thread, places_in, slots_in, ListsSame, GainsThread, GainsLabel, DropsLabel, MovesLabel};

use aero_clock::Clock;
use std::alloc::{AllocError, Global};

/// Of one thread: the number of its open block, 0 where it has none, and what that block leads to,
/// the threads, each with a number that isn't 0, and the places of labels.
#[derive(Drop)]
pub struct Led {
    pub number: u32,
    pub threads: Clock,
    pub labels: Vec<u32>,
}

impl Led {
    // No open block. It takes no memory.
    fn new(alloc: Global) -> Led
        ensures number { result.number ≡ 0 }
        ensures threads { (s : ℕ) → number_at result.threads s ≡ 0 }
        ensures labels { result.labels.items ≡ [] }
    {
        Led {
            number: 0,
            threads: Clock::new(alloc),
            labels: Vec::new(alloc),
        }
    }

    // An open block of thread t, which leads to the thread itself.
    fn of_begin(alloc: Global, t: u32, number: u32) -> Result<Led, AllocError>
        ensures { IfOk result (λ led. IsOfBegin (Some led) t number) }
    {
        let mut threads = Clock::new(alloc);
        threads.raise(t)?;
        Ok(Led {
            number,
            threads,
            labels: Vec::new(alloc),
        })
    }

    // How many slots are listed.
    fn len(&self) -> usize
        ensures { (threads : ℕ) → result ≡ length (slots_in (Some self.now) threads) }
    {
        self.threads.pairs().len() + self.labels.len()
    }

    // The number of one of them, where there are so many threads.
    fn slot(&self, i: usize, threads: usize) -> usize
        requires few { threads ≤ 2 ^ 32 }
        requires within { i < length (slots_in (Some self.now) threads) }
        ensures { slice_get (slots_in (Some self.now) threads) i ≡ Some result }
    {
        let pairs = self.threads.pairs();
        if i < pairs.len() {
            return pairs[i].0 as usize;
        }
        threads + self.labels[i - pairs.len()] as usize
    }

    // Whether the block leads to a slot whose clock has n at the block's thread.
    fn leads_to(&self, n: u32) -> bool
        ensures { result ≡ leads self.now.number n }
    {
        self.number != 0 && self.number <= n
    }

    // Lists thread s, if the block leads to it.
    fn gain_thread(&mut self, s: u32, n: u32) -> Result<(), AllocError>
        ensures { OnOk result (GainsThread (Some self.old) (Some self.new) s n) }
    {
        if self.leads_to(n) && self.threads.get(s) == 0 {
            self.threads.raise(s)?;
        }
        Ok(())
    }

    // Lists the label at this place, if the block leads to its slot now, and didn't.
    fn gain_label(&mut self, place: u32, was: u32, n: u32) -> Result<(), AllocError>
        ensures { OnOk result (GainsLabel (Some self.old) (Some self.new) place was n) }
    {
        if self.leads_to(n) && !self.leads_to(was) {
            self.labels.push(place)?;
        }
        Ok(())
    }

    // Lists the label at this place no more.
    fn drop_label(&mut self, place: u32)
        ensures { DropsLabel (Some self.old) (Some self.new) place }
    {
        drop_place(&mut self.labels, place);
    }
}

fn drop_place(places: &mut Vec<u32>, place: u32)
    ensures { places.new.items ≡ filter (λ n. not (n == place)) places.old.items }
{
    places.retain(|other| *other != place);
}

// Lists thread s for thread u, if u's block leads to it.
fn gain_thread_at(leds: &mut [Led], s: u32, u: u32, n: u32) -> Result<(), AllocError>
    ensures here { OnOk result (GainsThread (slice_get leds.old u) (slice_get leds.new u) s n) }
    ensures others { (v : ℕ) → v ≢ u → slice_get leds.new v ≡ slice_get leds.old v }
{
    if (u as usize) < leds.len() {
        leds[u as usize].gain_thread(s, n)?;
    }
    Ok(())
}

// Lists thread s, which has this clock, for each block that leads to it.
fn gain_thread(leds: &mut [Led], s: u32, clock: &Clock) -> Result<(), AllocError>
    ensures { OnOk result ((v : ℕ) →
        GainsThread (slice_get leds.old v) (slice_get leds.new v) s (number_at clock.now v)) }
{
    let pairs = clock.pairs();
    for i in 0..pairs.len() {
        let (u, n) = pairs[i];
        gain_thread_at(leds, s, u, n)?;
    }
    Ok(())
}

// Lists the label at this place for thread u, if u's block leads to its slot now, and didn't.
fn gain_label_at(leds: &mut [Led], place: u32, u: u32, was: u32, n: u32) -> Result<(), AllocError>
    ensures here { OnOk result (GainsLabel (slice_get leds.old u) (slice_get leds.new u) place was
        n) }
    ensures others { (v : ℕ) → v ≢ u → slice_get leds.new v ≡ slice_get leds.old v }
{
    if was < n && (u as usize) < leds.len() {
        leds[u as usize].gain_label(place, was, n)?;
    }
    Ok(())
}

// The number of thread u, which may stand at this place of the clock's pairs.
#[inline(always)]
fn number_near(clock: &Clock, pairs: &[(u32, u32)], at: usize, u: u32) -> u32
    requires { Lists pairs.now clock.now }
    ensures { result ≡ number_at clock.now u }
{
    if at < pairs.len() && pairs[at].0 == u {
        return pairs[at].1;
    }
    clock.get(u)
}

// Lists the label at this place for each block that leads to its slot now, and didn't.
fn gain_label(leds: &mut [Led], place: u32, was: &Clock, clock: &Clock) -> Result<(), AllocError>
    ensures { OnOk result ((v : ℕ) →
        GainsLabel (slice_get leds.old v) (slice_get leds.new v) place (number_at was.now v)
        (number_at clock.now v)) }
{
    let before = was.pairs();
    let pairs = clock.pairs();
    for i in 0..pairs.len() {
        let (u, n) = pairs[i];
        gain_label_at(leds, place, u, number_near(was, before, i, u), n)?;
    }
    Ok(())
}

// Lists the label at this place for no block.
fn drop_label(leds: &mut [Led], place: u32)
    ensures { (v : ℕ) → DropsLabel (slice_get leds.old v) (slice_get leds.new v) place }
{
    for led in leds.iter_mut() {
        led.drop_label(place);
    }
}

// Lists the label at this place for the blocks that lead to its slot now, and for no others.
fn move_label(
    leds: &mut [Led],
    place: u32,
    was: &Clock,
    clock: &Clock,
    none: &Clock,
) -> Result<(), AllocError>
    requires { IsZero none.now }
    ensures { OnOk result ((v : ℕ) →
        MovesLabel (slice_get leds.old v) (slice_get leds.new v) place (number_at was.now v)
        (number_at clock.now v)) }
{
    if was.at_most(clock) {
        return gain_label(leds, place, was, clock);
    }
    drop_label(leds, place);
    gain_label(leds, place, none, clock)
}

// The same of a label that is new.
fn new_label(leds: &mut [Led], place: u32, clock: &Clock, none: &Clock) -> Result<(), AllocError>
    requires { IsZero none.now }
    ensures { OnOk result ((v : ℕ) →
        MovesLabel (slice_get leds.old v) (slice_get leds.new v) place 0 (number_at clock.now v)) }
{
    gain_label(leds, place, none, clock)
}

/// For each thread what its open block leads to.
#[derive(Drop)]
pub struct Index {
    blocks: Vec<Led>,
}

impl Index {
    /// No thread.
    pub(crate) fn new(alloc: Global) -> Index
        ensures { (v : ℕ) → led_at result v ≡ None }
    {
        Index {
            blocks: Vec::new(alloc),
        }
    }

    /// Makes room for thread `t`.
    pub(crate) fn reach(&mut self, t: u32) -> Result<(), AllocError>
        ensures room { OnOk result (t < vec_len self.new.blocks) }
        ensures same { (v : ℕ) → ListsSame (led_at self.old v) (led_at self.new v) }
    {
        let at = t as usize;
        while self.blocks.len() <= at {
            let led = Led::new(*self.blocks.allocator());
            self.blocks.push(led)?;
        }
        Ok(())
    }

    /// Thread `t` begins a block with this number, which leads to the thread alone.
    pub(crate) fn open(&mut self, t: u32, number: u32) -> Result<(), AllocError>
        requires { t < vec_len self.old.blocks }
        ensures begun { OnOk result (IsOfBegin (led_at self.new t) t number) }
        ensures others { (v : ℕ) → v ≢ t → led_at self.new v ≡ led_at self.old v }
    {
        let led = Led::of_begin(*self.blocks.allocator(), t, number)?;
        self.blocks[t as usize] = led;
        Ok(())
    }

    /// The block of thread `t` ends. It takes no memory.
    pub(crate) fn close(&mut self, t: u32)
        ensures closed { ListsSame None (led_at self.new t) }
        ensures others { (v : ℕ) → v ≢ t → led_at self.new v ≡ led_at self.old v }
    {
        if (t as usize) < self.blocks.len() {
            let led = Led::new(*self.blocks.allocator());
            self.blocks[t as usize] = led;
        }
    }

    /// Lists thread `s`, which has this clock, for each block that leads to it. Where a thread
    /// isn't listed already, this takes memory.
    pub(crate) fn gain_thread(&mut self, s: u32, clock: &Clock) -> Result<(), AllocError>
        ensures { OnOk result ((v : ℕ) →
            GainsThread (led_at self.old v) (led_at self.new v) s (number_at clock.now v)) }
    {
        gain_thread(&mut self.blocks, s, clock)
    }

    /// Lists the label at this place for each block that leads to its slot by this clock, and
    /// didn't by the clock that it had.
    pub(crate) fn gain_label(
        &mut self,
        place: u32,
        was: &Clock,
        clock: &Clock,
    ) -> Result<(), AllocError>
        ensures { OnOk result ((v : ℕ) →
            GainsLabel (led_at self.old v) (led_at self.new v) place (number_at was.now v)
            (number_at clock.now v)) }
    {
        gain_label(&mut self.blocks, place, was, clock)
    }

    /// Lists the label at this place for the blocks that lead to its slot by this clock, and for no
    /// others, after the clock that it had.
    pub(crate) fn move_label(
        &mut self,
        place: u32,
        was: &Clock,
        clock: &Clock,
    ) -> Result<(), AllocError>
        ensures { OnOk result ((v : ℕ) →
            MovesLabel (led_at self.old v) (led_at self.new v) place (number_at was.now v)
            (number_at clock.now v)) }
    {
        let none = Clock::new(*self.blocks.allocator());
        move_label(&mut self.blocks, place, was, clock, &none)
    }

    /// Lists the label at this place, which is new, for the blocks that lead to its slot by this
    /// clock.
    pub(crate) fn new_label(&mut self, place: u32, clock: &Clock) -> Result<(), AllocError>
        ensures { OnOk result ((v : ℕ) →
            MovesLabel (led_at self.old v) (led_at self.new v) place 0 (number_at clock.now v)) }
    {
        let none = Clock::new(*self.blocks.allocator());
        new_label(&mut self.blocks, place, clock, &none)
    }

    /// How many slots the open block of thread `t` leads to.
    pub(crate) fn led(&self, t: u32) -> usize
        ensures { (threads : ℕ) → result ≡ length (slots_in (led_at self.now t) threads) }
    {
        match self.blocks.get(t as usize) {
            Some(led) => led.len(),
            None => 0,
        }
    }

    /// The number of one of them, where there are so many threads: the threads come first.
    pub(crate) fn led_slot(&self, t: u32, i: usize, threads: usize) -> usize
        requires few { threads ≤ 2 ^ 32 }
        requires within { i < length (slots_in (led_at self.now t) threads) }
        ensures { slice_get (slots_in (led_at self.now t) threads) i ≡ Some result }
    {
        match self.blocks.get(t as usize) {
            Some(led) => led.slot(i, threads),
            None => 0,
        }
    }
}
