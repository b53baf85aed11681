// SPDX-License-Identifier: Apache-2.0
// SPDX-FileCopyrightText: Copyright the Vortex contributors
// Changed: written anew in Rattle after ptype.rs of vortex-array 0.89.0; only the integer kinds are kept, with the value as the meaning.
//
// The eight integer kinds under one trait, with one impl for each kind: a macro could write the functions and not the meanings, which stand in ghost members.
ghost use Rattle.std.specs.Prelude.{◌≡◌, ℕ, ◌<◌, ◌≤◌, ℤ, pos, IfSome, MatchOption};
ghost use Rattle.ptype.specs.Integers.{natural};

pub trait IntegerPType: Copy {
    ghost value: { Self → ℤ };

    ghost greatest: { ℕ };

    // The kind's greatest number.
    fn max_value_as_u64() -> u64
        ensures { result ≡ greatest };

    // The number, or none where it is negative.
    fn to_u64(self) -> Option<u64>
        ensures value { result ≡ natural (value self) }
        ensures bound { IfSome result (λ n. n ≤ greatest) };

    // This number in the kind, or none where it is above the greatest.
    fn from_u64(n: u64) -> Option<Self>
        ensures { MatchOption result (greatest < n) (λ k. (n ≤ greatest) × (value k ≡ pos n)) };
}

impl IntegerPType for u8 {
    ghost value = { pos };

    ghost greatest = { 255 };

    fn max_value_as_u64() -> u64 {
        u64::from(u8::MAX)
    }

    fn to_u64(self) -> Option<u64> {
        Some(u64::from(self))
    }

    fn from_u64(n: u64) -> Option<u8> {
        u8::try_from(n).ok()
    }
}

impl IntegerPType for u16 {
    ghost value = { pos };

    ghost greatest = { 65535 };

    fn max_value_as_u64() -> u64 {
        u64::from(u16::MAX)
    }

    fn to_u64(self) -> Option<u64> {
        Some(u64::from(self))
    }

    fn from_u64(n: u64) -> Option<u16> {
        u16::try_from(n).ok()
    }
}

impl IntegerPType for u32 {
    ghost value = { pos };

    ghost greatest = { 4294967295 };

    fn max_value_as_u64() -> u64 {
        u64::from(u32::MAX)
    }

    fn to_u64(self) -> Option<u64> {
        Some(u64::from(self))
    }

    fn from_u64(n: u64) -> Option<u32> {
        u32::try_from(n).ok()
    }
}

impl IntegerPType for u64 {
    ghost value = { pos };

    ghost greatest = { 18446744073709551615 };

    fn max_value_as_u64() -> u64 {
        u64::MAX
    }

    fn to_u64(self) -> Option<u64> {
        Some(self)
    }

    fn from_u64(n: u64) -> Option<u64> {
        Some(n)
    }
}

impl IntegerPType for i8 {
    ghost value = { λ z. z };

    ghost greatest = { 127 };

    fn max_value_as_u64() -> u64 {
        i8::MAX as u64
    }

    fn to_u64(self) -> Option<u64> {
        (self >= 0).then(|| self as u64)
    }

    fn from_u64(n: u64) -> Option<i8> {
        i8::try_from(n).ok()
    }
}

impl IntegerPType for i16 {
    ghost value = { λ z. z };

    ghost greatest = { 32767 };

    fn max_value_as_u64() -> u64 {
        i16::MAX as u64
    }

    fn to_u64(self) -> Option<u64> {
        (self >= 0).then(|| self as u64)
    }

    fn from_u64(n: u64) -> Option<i16> {
        i16::try_from(n).ok()
    }
}

impl IntegerPType for i32 {
    ghost value = { λ z. z };

    ghost greatest = { 2147483647 };

    fn max_value_as_u64() -> u64 {
        i32::MAX as u64
    }

    fn to_u64(self) -> Option<u64> {
        (self >= 0).then(|| self as u64)
    }

    fn from_u64(n: u64) -> Option<i32> {
        i32::try_from(n).ok()
    }
}

impl IntegerPType for i64 {
    ghost value = { λ z. z };

    ghost greatest = { 9223372036854775807 };

    fn max_value_as_u64() -> u64 {
        i64::MAX as u64
    }

    fn to_u64(self) -> Option<u64> {
        (self >= 0).then(|| self as u64)
    }

    fn from_u64(n: u64) -> Option<i64> {
        i64::try_from(n).ok()
    }
}
