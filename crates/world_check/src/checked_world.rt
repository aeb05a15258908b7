use crate::valid::is_valid;
use crate::{CheckFault, check};
use check_names::{are_args_known, is_def_known};
use std::alloc::Global;
use std::marker::Model;
use world::{DefWithBodyId, GenericArgs, HirDatabase};

/// A world that passed the check. Contracts see it as its database.
pub struct CheckedWorld {
    db: HirDatabase,
}

impl Drop for CheckedWorld {
    fn drop(self) {
        let CheckedWorld { db: _db } = self;
    }
}

impl Model for CheckedWorld {
    ghost use Rattle.world.specs.declared.database.HirDatabase.{HirDatabase};
    ghost use Rattle.world.specs.contracts.database.HirDatabase as database;

    ghost Value = { HirDatabase };

    ghost coded = { database.the_row.coded };

    ghost use Rattle.world_check.specs.Rows.{IsAccepted};

    ghost view = { λ checked. checked.db };

    ghost invariant = { λ checked. IsAccepted checked.db };
}

impl CheckedWorld {
    ghost use Rattle.std.specs.Prelude.{◌≡◌, IfOk, IfErr, OnOk};
    ghost use Rattle.world.specs.Checked.{IsChecked};
    ghost use Rattle.world_check.specs.Rows.{Holds, IsRefusal};
    ghost use Rattle.world_check.specs.Valid.{is_valid};
    ghost use Rattle.check_names.specs.Known.{are_args_known, is_def_known};

    /// Checks a world, as `check` does. If the check fails, the database is returned with the fault.
    pub fn new(alloc: Global, db: HirDatabase) -> Result<CheckedWorld, (HirDatabase, CheckFault)>
        ensures same { IfOk result (λ checked. checked ≡ db) }
        ensures holds { OnOk result (Holds db) }
        ensures handed_back { IfErr result (λ refusal. refusal.0 ≡ db) }
        ensures refused { IfErr result (λ refusal. IsRefusal db refusal.1) }
    {
        match check(alloc, &db) {
            Ok(()) => Ok(CheckedWorld { db }),
            Err(fault) => Err((db, fault)),
        }
    }

    /// The database.
    pub fn db(&self) -> &HirDatabase
        ensures same { result.now ≡ self.now }
        ensures checked { IsChecked result.now }
        ensures holds { Holds result.now }
    {
        &self.db
    }

    /// Whether the id of a definition is in range.
    pub fn has(&self, def: DefWithBodyId) -> bool
        ensures { result ≡ is_def_known self.now def }
    {
        is_def_known(&self.db, def)
    }

    /// Whether all ids in generic arguments are in range.
    pub fn has_args(&self, args: &GenericArgs) -> bool
        ensures { result ≡ are_args_known self.now args.now }
    {
        are_args_known(&self.db, args)
    }

    /// Whether a definition can be evaluated at generic arguments: it is a constant, a static or a function
    /// without parameters, there is one argument of its kind for each generic parameter, and no argument
    /// has a generic parameter or an error in it.
    pub fn is_valid(&self, def: DefWithBodyId, args: &GenericArgs) -> bool
        ensures { result ≡ is_valid self.now def args.now }
    {
        is_valid(&self.db, def, args)
    }
}
