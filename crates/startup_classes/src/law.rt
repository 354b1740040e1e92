ghost use Rattle.std.specs.Prelude.{◌≡◌, ℕ, List, length};
ghost use Rattle.class_pool.specs.declared.class.Class.{Class};
ghost use Rattle.startup_classes.specs.declared.load_fault.LoadFault.{LoadFault};
ghost use Rattle.startup_classes.specs.Loading.{Loads, IsRefused, AreBytes};

use class_grammar::one_reading;

/// Files load to one list of classes, or are refused with one fault, and never both.
pub const fn one_loading()
    ensures one_list { (listed files : List (List ℕ)) (cs ds : List Class) → length listed ≡ length files → Loads listed files cs → Loads listed files ds → cs ≡ ds }
    ensures never_both { (listed files : List (List ℕ)) (cs : List Class) (f : LoadFault) → length listed ≡ length files → AreBytes (length files) files → Loads listed files cs → IsRefused listed files f → ⊥ }
    ensures one_fault { (listed files : List (List ℕ)) (f g : LoadFault) → length listed ≡ length files → AreBytes (length files) files → IsRefused listed files f → IsRefused listed files g → f ≡ g }
{
    one_reading();
}
