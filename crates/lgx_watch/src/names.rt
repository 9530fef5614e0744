// The names that a report is written with.
use lgx_num::Items;
use std::marker::Model;

/// The names of tasks and programs and the texts of watched places, each list in project order, as the project has them.
pub struct Names {
    pub tasks: Items<Items<u8>>,
    pub programs: Items<Items<u8>>,
    pub watches: Items<Items<u8>>,
}

impl Drop for Names {
    fn drop(self) {
        let Names {
            tasks: _,
            programs: _,
            watches: _,
        } = self;
    }
}

impl Model for Names {
    ghost use Rattle.spec_text.specs.ReportText.{Names as NamesSeen};

    ghost Value = { NamesSeen };

    ghost view = { λ n. record { tasks = n.tasks; programs = n.programs; watches = n.watches } };
}
