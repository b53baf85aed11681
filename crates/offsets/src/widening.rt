// SPDX-License-Identifier: Apache-2.0
// SPDX-FileCopyrightText: Copyright the Vortex contributors
// Changed: `Offsets` of compute/take.rs in vortex-array 0.89.0, written anew in Rattle over lent entries; it has a top, and refuses where it is full.
//
// The widening store: 32-bit entries until an offset no longer fits them, 64-bit entries from then on.
ghost use Rattle.std.specs.Prelude.{◌≡◌, ◌+◌, ◌-◌, ◌≤◌, min, true, false, [], ◌∷◌, ◌++◌, length, if◌then◌else◌, None, MatchBool};
ghost use Rattle.ptype.specs.Integers.{integers_of};
ghost use Rattle.offsets.specs.Stores.{takes, is_wide_after, held, amounts, HandedOut, WideningExamples};
ghost use Rattle.std.proofs.Common.{rules};

use crate::entry::{natural_part, read_entry, write_entry};
use crate::store::OffsetStore;
use ptype::native::IntegerPType;

// A 32-bit kind and the 64-bit kind that holds all its numbers. One impl for each kind, as for the kinds themselves.
pub trait NarrowPType: IntegerPType {
    type Wide: IntegerPType;

    ghost wider: { Self.IntegerPType.greatest ≤ Self.Wide.IntegerPType.greatest };
}

impl NarrowPType for i32 {
    type Wide = i64;

    ghost wider = { Prim.search rules };
}

impl NarrowPType for u32 {
    type Wide = u64;

    ghost wider = { Prim.search rules };
}

// Both regions are lent and of a fixed size, so the count of used entries and the width stand beside them.
#[derive(Drop)]
pub struct Offsets<'a, N: NarrowPType> {
    narrow: &'a mut [N],
    wide: &'a mut [N::Wide],
    used: usize,
    widened: bool,
}

// Copies the offsets of the first n entries to a kind that can hold them.
fn copy_entries<A: IntegerPType, B: IntegerPType>(from: &[A], n: usize, to: &mut [B])
    requires wider { A.IntegerPType.greatest ≤ B.IntegerPType.greatest }
    requires source { n ≤ length from.now }
    requires room { n ≤ length to.old }
    ensures { held B.IntegerPType.value n to.new ≡ integers_of (amounts (held A.IntegerPType.value n from.now)) }
{
    // written by number: what a `zip` over `iter_mut` leaves behind is not followed by the check
    for (i, entry) in from[..n].iter().enumerate() {
        write_entry(to, i, entry.to_u64().unwrap_or(0));
    }
}

impl<'a, N: NarrowPType> Offsets<'a, N> {
    // An empty store over these entries; the shorter of the two regions counts.
    pub fn new(narrow: &'a mut [N], wide: &'a mut [N::Wide]) -> Offsets<'a, N>
        ensures used { result.used ≡ 0 }
        ensures narrow { (result.widened ≡ false) × (result.narrow.now ≡ narrow.old) }
        ensures wide { result.wide.now ≡ wide.old }
        ensures examples { WideningExamples }
    {
        Offsets {
            narrow,
            wide,
            used: 0,
            widened: false,
        }
    }

    // Copies all offsets to the wide entries.
    fn widen(&mut self)
        requires { (self.old.used ≤ length self.old.narrow.now) × (self.old.used ≤ length self.old.wide.now) }
        ensures copied { held N.Wide.IntegerPType.value self.old.used self.new.wide.now ≡ integers_of (amounts (held N.IntegerPType.value self.old.used self.old.narrow.now)) }
        ensures narrow { self.new.narrow.now ≡ self.old.narrow.now }
        ensures wide { length self.new.wide.now ≡ length self.old.wide.now }
        ensures used { (self.new.used ≡ self.old.used) × (self.new.widened ≡ true) }
    {
        // named before the wide entries are lent: the check does not follow a part of one field while another field is lent
        let narrow = &mut *self.narrow;
        copy_entries(narrow, self.used, self.wide);
        self.widened = true;
    }

    // The width of the entries that hold the offsets: 32 or 64 bits.
    pub fn width(&self) -> u32
        ensures { result ≡ (if self.now.widened then 64 else 32) }
    {
        if self.widened { 64 } else { 32 }
    }

    // The 32-bit entries that hold the offsets: none once the store is wide, and none where one is negative, as no push makes it.
    // It stands beside `as_wide`, since the two hand out slices of different types.
    pub fn as_narrow(&self) -> Option<&[N]>
        ensures { MatchBool self.now.widened (result ≡ None) (HandedOut N.IntegerPType.value (held N.IntegerPType.value self.now.used self.now.narrow.now) result) }
    {
        if self.widened {
            None
        } else {
            natural_part(self.narrow, self.used)
        }
    }

    // The 64-bit entries that hold the offsets: none while the store is narrow, and none where one is negative, as no push makes it.
    pub fn as_wide(&self) -> Option<&[N::Wide]>
        ensures { MatchBool self.now.widened (HandedOut N.Wide.IntegerPType.value (held N.Wide.IntegerPType.value self.now.used self.now.wide.now) result) (result ≡ None) }
    {
        if self.widened {
            natural_part(self.wide, self.used)
        } else {
            None
        }
    }
}

impl<N: NarrowPType> OffsetStore for Offsets<'_, N> {
    ghost offsets = { λ s. amounts (if s.widened then held N.Wide.IntegerPType.value s.used s.wide.now else held N.IntegerPType.value s.used s.narrow.now) };

    ghost free = { λ s. min (length s.narrow.now) (length s.wide.now) - s.used };

    ghost top = { λ s. N.Wide.IntegerPType.greatest };

    fn free(&self) -> u64 {
        self.narrow
            .len()
            .min(self.wide.len())
            .saturating_sub(self.used) as u64
    }

    fn top(&self) -> u64 {
        <N::Wide as IntegerPType>::max_value_as_u64()
    }

    fn len(&self) -> u64 {
        let entries = if self.widened {
            self.wide.len()
        } else {
            self.narrow.len()
        };
        self.used.min(entries) as u64
    }

    fn get(&self, i: u64) -> Option<u64> {
        (i < self.len()).then(|| {
            if self.widened {
                read_entry(self.wide, i as usize)
            } else {
                read_entry(self.narrow, i as usize)
            }
        })
    }

    fn push(&mut self, offset: u64) -> bool
        ensures test { result ≡ takes (min (length self.old.narrow.now) (length self.old.wide.now) - self.old.used) N.Wide.IntegerPType.greatest offset }
        ensures after { amounts (if self.new.widened then held N.Wide.IntegerPType.value self.new.used self.new.wide.now else held N.IntegerPType.value self.new.used self.new.narrow.now) ≡ (if result then amounts (if self.old.widened then held N.Wide.IntegerPType.value self.old.used self.old.wide.now else held N.IntegerPType.value self.old.used self.old.narrow.now) ++ offset ∷ [] else amounts (if self.old.widened then held N.Wide.IntegerPType.value self.old.used self.old.wide.now else held N.IntegerPType.value self.old.used self.old.narrow.now)) }
        ensures spent { (min (length self.new.narrow.now) (length self.new.wide.now) - self.new.used) + (if result then 1 else 0) ≡ min (length self.old.narrow.now) (length self.old.wide.now) - self.old.used }
        ensures level { N.Wide.IntegerPType.greatest ≡ N.Wide.IntegerPType.greatest }
        ensures same { result ≡ false → self.new ≡ self.old }
        ensures width { self.new.widened ≡ is_wide_after N.IntegerPType.greatest self.old.widened result offset }
    {
        if self.free() == 0 || offset > self.top() {
            return false;
        }
        if !self.widened && offset > N::max_value_as_u64() {
            self.widen();
        }
        if self.widened {
            write_entry(self.wide, self.used, offset);
        } else {
            write_entry(self.narrow, self.used, offset);
        }
        self.used += 1;
        true
    }
}
