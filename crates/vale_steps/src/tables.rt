ghost use Rattle.std.specs.Prelude.{◌≡◌, position};
ghost use Rattle.vale_steps.specs.Words.{switch_of};
ghost use Rattle.vale_steps.specs.NamedTables.{is_for_switch};

use nm_types::Name;
use vale_learn::Table;

/// The learning table of a switch.
#[derive(Drop)]
pub struct NamedTable {
    /// A name on the switch: that of a port that is or was there, or of an opening that failed.
    pub label: Name,
    /// Where its ports' senders are.
    pub table: Table,
}

/// The place of the table of the switch that a port of this name is on.
pub fn table_of(tables: &[NamedTable], name: &Name) -> Option<usize>
    ensures { result ≡ position (is_for_switch (switch_of name.now)) tables.now }
{
    let switch = name.switch();
    tables
        .iter()
        .position(|table| table.label.switch() == switch)
}
