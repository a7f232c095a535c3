//! Texts are stored.
ghost use Rattle.std.specs.Prelude.{◌≡◌, ◌<◌, ◌≤◌, ◌^◌, map, length, IfErr, OnOk, OnErr, OnSome};
ghost use Rattle.jr_shelf.specs.Counts.{Rose, RoseBy};
ghost use Rattle.jr_files.specs.Storing.{StoredUpTo, with_stores};
ghost use Rattle.jr_files.specs.Views.{store_of};

use crate::faults::StoreFault;
use jr_shelf::Shelf;

/// A text, and the name under which it is to be stored.
#[derive(Drop)]
pub struct Store<'a> {
    pub name: String,
    pub text: &'a str,
}

/// Stores the texts in order, up to the first store that fails. It takes no memory.
pub fn store_all<S: Shelf>(stores: &[Store], shelf: &mut S) -> Result<(), StoreFault>
    requires { length stores.now < 2 ^ 32 }
    ensures ok { OnOk result
        (S.holds shelf.new ≡ with_stores (S.holds shelf.old) (map store_of stores.now)) }
    ensures in_part { IfErr result (λ fault.
        StoredUpTo (S.holds shelf.old) (S.holds shelf.new) (map store_of stores.now) fault.stored) }
    ensures failed { OnErr result (Rose (S.faults shelf.old) (S.faults shelf.new)) }
    ensures faults { S.faults shelf.old ≤ S.faults shelf.new }
    ensures faults_stay { OnOk result (S.faults shelf.new ≡ S.faults shelf.old) }
    ensures missed { OnSome (S.holds shelf.old) (S.missed shelf.new ≡ S.missed shelf.old) }
    ensures served_ok { OnOk result
        (RoseBy (length stores.now) (S.served shelf.old) (S.served shelf.new)) }
    ensures served_err { IfErr result (λ fault.
        RoseBy fault.stored (S.served shelf.old) (S.served shelf.new)) }
{
    for (number, store) in stores.iter().enumerate() {
        if shelf
            .store(store.name.as_str(), store.text.as_bytes())
            .is_err()
        {
            let stored = number as u32;
            return Err(StoreFault { stored });
        }
    }
    Ok(())
}
