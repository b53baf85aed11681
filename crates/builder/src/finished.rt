// SPDX-License-Identifier: Apache-2.0
// SPDX-FileCopyrightText: Copyright the Vortex contributors
// Changed: `Validity` of validity.rs in vortex-array 0.89.0, without its array: a finished record carries no bits.
//
// The record of a finished column.
ghost use Rattle.std.specs.Prelude.{◌≡◌};
ghost use Rattle.builder.specs.Finishing.{validity_number};

#[derive(Clone, Copy, Debug, PartialEq, Eq)]
pub enum Validity {
    NonNullable = 0,
    AllValid = 1,
    AllInvalid = 2,
    Bits = 3,
}

impl Validity {
    // The number of the case.
    pub fn number(self) -> u8
        ensures { result ≡ validity_number self }
    {
        self as u8
    }
}

#[derive(Clone, Copy, Debug, PartialEq, Eq)]
pub struct Finished {
    pub rows: u64,
    pub bytes: u64,
    pub valid: u64,
    pub validity: Validity,
}
