//! The entries of a package: the name of each, and what it holds.
ghost use Rattle.std.specs.Prelude.{◌≡◌, ◌<◌, length};
ghost use Rattle.cpc_package.specs.Rows.{entry_rows, name_of, role_of, rows_of};
ghost use Rattle.cpc_package.specs.declared.rows.TheConstants.{ENTRIES, REVISION_2_ENTRIES};

/// What an entry holds.
#[derive(Clone, Copy, Debug, PartialEq, Eq)]
pub enum Role {
    /// The number of entries, an integer.
    Count,
    /// The revision, an integer.
    Revision,
    /// An integer or a register.
    Either,
    /// A register.
    Register,
}

/// An entry's name, and what it holds.
#[derive(Clone, Copy, Debug)]
pub struct Row(pub &'static [u8], pub Role);

/// How many entries a package of revision 3 has, which is the most (ACPI 6.5, 8.4.6.1).
pub const ENTRIES: usize = 23;

/// How many entries a package of revision 2 has: the same without the last two, the lowest and the nominal frequency.
pub const REVISION_2_ENTRIES: usize = 21;

/// The entries in their order (ACPI 6.5, 8.4.6.1).
const ROWS: [Row; ENTRIES] = [
    Row(b"NumEntries", Role::Count),
    Row(b"Revision", Role::Revision),
    Row(b"HighestPerformance", Role::Either),
    Row(b"NominalPerformance", Role::Either),
    Row(b"LowestNonlinearPerformance", Role::Either),
    Row(b"LowestPerformance", Role::Either),
    Row(b"GuaranteedPerformance", Role::Register),
    Row(b"DesiredPerformance", Role::Register),
    Row(b"MinimumPerformance", Role::Register),
    Row(b"MaximumPerformance", Role::Register),
    Row(b"PerformanceReductionTolerance", Role::Register),
    Row(b"TimeWindow", Role::Register),
    Row(b"CounterWraparoundTime", Role::Either),
    Row(b"ReferencePerformanceCounter", Role::Register),
    Row(b"DeliveredPerformanceCounter", Role::Register),
    Row(b"PerformanceLimited", Role::Register),
    Row(b"Enable", Role::Register),
    Row(b"AutonomousSelectionEnable", Role::Either),
    Row(b"AutonomousActivityWindow", Role::Register),
    Row(b"EnergyPerformancePreference", Role::Register),
    Row(b"ReferencePerformance", Role::Either),
    Row(b"LowestFrequency", Role::Either),
    Row(b"NominalFrequency", Role::Either),
];

fn rows() -> &'static [Row]
    ensures rows { rows_of result.now ≡ entry_rows }
    ensures all { length result.now ≡ ENTRIES }
{
    &ROWS
}

/// The row of an entry, by its number.
#[tactic(auto, using(crate::proofs::RowTable::row_name, crate::proofs::RowTable::row_role))]
pub fn row_of(n: usize) -> Row
    requires { n < ENTRIES }
    ensures name { result.0.now ≡ name_of n }
    ensures role { result.1 ≡ role_of n }
{
    rows()[n]
}

/// The numbers of entries, so that they don't change unseen. It does nothing.
pub fn limits_are()
    ensures entries { ENTRIES ≡ 23 }
    ensures revision_2_entries { REVISION_2_ENTRIES ≡ 21 }
{}
