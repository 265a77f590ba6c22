//! The laws, on a function's contract.
ghost use Rattle.model.specs.Certain.{CertainOf};
ghost use Rattle.model.specs.Law.{LawOf, RefusedOf, SteadyOf, TablesOf, TestOf};
ghost use Rattle.model.specs.Tests.{FoundOf, PurgeTestOf, SettleTestOf};
ghost use Rattle.model.specs.World.{parts_of};

use frames::Policy;
use pages::store::PageStore;
use translation::Translator;

/// Whatever the translator, the policy and the page store are: after an answered IPL every list of calls is answered as
/// the flat machine answers it, and every list of calls each handed any main storage leaves the machine consistent. IPL
/// writes its tables and alters no other byte; a refused one leaves everything as found. In a consistent machine, on any
/// main storage, the frame found for a partition page is the pageable frame whose record names it, or none where no record
/// does; once a call has passed its tests the policy hands over a pageable frame, and the translator answers the byte of the
/// page's frame; and the slot of each partition page can be read and written. The tests of the tables say just whether they
/// are what IPL, partitions and frame table give: for a partition page, and, on main storage of its length, for every page
/// that a record names and for every entry.
pub fn law_stands<T: Translator, P: Policy, S: PageStore>(_translator: &T, _policy: &P, _store: &S)
    ensures law { LawOf (parts_of T.Translator.rules P.Policy.rules S.PageStore.rules) }
    ensures tables { TablesOf }
    ensures refused { RefusedOf (parts_of T.Translator.rules P.Policy.rules S.PageStore.rules) }
    ensures found { FoundOf (parts_of T.Translator.rules P.Policy.rules S.PageStore.rules) }
    ensures test { TestOf (parts_of T.Translator.rules P.Policy.rules S.PageStore.rules) }
    ensures settle_test { SettleTestOf (parts_of T.Translator.rules P.Policy.rules S.PageStore.rules) }
    ensures purge_test { PurgeTestOf (parts_of T.Translator.rules P.Policy.rules S.PageStore.rules) }
    ensures certain { CertainOf (parts_of T.Translator.rules P.Policy.rules S.PageStore.rules) }
    ensures steady { SteadyOf (parts_of T.Translator.rules P.Policy.rules S.PageStore.rules) }
{}
