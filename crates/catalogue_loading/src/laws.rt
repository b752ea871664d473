//! Laws of what is loaded.

ghost use Rattle.std.specs.Prelude.{◌≡◌, Ok, Err};
ghost use Rattle.store.specs.Records.{Records};
ghost use Rattle.store.specs.declared.fault.Fault.TheVariants.{Damaged};
ghost use Rattle.stored_database.specs.Definitions.{Definitions};
ghost use Rattle.stored_database.specs.Records.{Define};
ghost use Rattle.catalogue_loading.specs.Recorded.{LoadsCatalogue};

use stored_database::one_catalogue;

/// What is loaded from records that a change of the definitions leads to is the catalogue that was
/// made with the change, and such records are never damaged.
pub fn loaded_catalogues_are_the_prepared_ones()
    ensures same { (records : Records) (prepared loaded : Definitions) → Define records prepared
        → LoadsCatalogue (Ok loaded) records → loaded ≡ prepared }
    ensures undamaged { (records : Records) (prepared : Definitions) → Define records prepared
        → LoadsCatalogue (Err Damaged) records → ⊥ }
{
    // For the proof: records stand for one catalogue.
    one_catalogue();
}
