// SPDX-License-Identifier: Apache-2.0
// SPDX-FileCopyrightText: Copyright the Vortex contributors
// Changed: `VarBinBuilder` of builder.rs in vortex-array 0.89.0, written anew in Rattle; it owns no memory, and must be ended by `finish` or `discard`.
//
// The builder itself. It is no `Drop`, so it cannot be let go. What stands in its type holds of every builder.
ghost use Rattle.std.specs.Prelude.{◌+◌, ◌*◌, ◌≤◌};

use slots::dtype::DType;

pub struct VarBinBuilder {
    pub(super) dtype: DType,
    pub(super) rows: u64,
    pub(super) used: u64,
    pub(super) valid: u64,
    pub(super) capacity: u64,
    pub(super) free_left: u64,
    pub(super) heap_left: u64,
    pub(super) bits_left: u64,
    ghost few: { capacity ≤ 16777216 },
    ghost within: { rows ≤ capacity },
    ghost counted: { valid ≤ rows },
    ghost entries: { capacity ≤ free_left + rows },
    ghost bits: { capacity ≤ 8 * bits_left },
    ghost inside: { used ≤ heap_left },
    ghost limit: { heap_left ≤ 68719476736 },
}
