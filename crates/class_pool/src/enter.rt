ghost use Rattle.std.specs.Prelude.{◌≡◌, length, take, IfOk};
ghost use Rattle.class_pool.specs.Enter as spec;
ghost use Rattle.class_pool.specs.Enter.{Enters, Steps, after, enter, put};
ghost use Rattle.class_pool.specs.Showing.{Holds};
ghost use Rattle.class_pool.specs.declared.entry.Entry.TheVariants as entry;
ghost use Rattle.class_pool.specs.declared.shown.Shown.TheVariants as shown;

use crate::entry::Entry;
use crate::pool::Pool;
use crate::pool_err::PoolErr;
use crate::shown::Shown;
use item_types::{Same, Text};

/// Entering: where entries of the kind show the same texts or the same number, the least of their
/// indices is given; else an entry's parts are entered first, in order, and then the entry takes
/// the next index, a long the next two. After a refusal the pool is as before.
impl Pool {
    /// The index of the text.
    ///
    /// # Errors
    /// `Full` exactly where an index would pass 65,534, `Memory` for want of memory.
    #[tactic(auto, unfolding(crate::specs::Enter::utf8))]
    pub fn utf8(&mut self, text: &Text) -> Result<u16, PoolErr>
        ensures does { Enters (spec.utf8 text.now self.old) result self.old self.new }
        ensures holds { IfOk result (λ i. Holds self.new i (shown.Text text.now)) }
        ensures stays { take (length self.old) self.new ≡ self.old }
    {
        let what = Shown::Text(text.try_copy(self.alloc())?);
        match self.find(&what)? {
            Some(index) => Ok(index),
            None => {
                let entry = Entry::Utf8(text.try_copy(self.alloc())?);
                self.put(entry, &what)
            }
        }
    }

    /// The index of the int with these bits.
    ///
    /// # Errors
    /// `Full` exactly where an index would pass 65,534, `Memory` for want of memory.
    #[tactic(auto, unfolding(crate::specs::Enter::integer))]
    pub fn integer(&mut self, n: u32) -> Result<u16, PoolErr>
        ensures does { Enters (spec.integer n self.old) result self.old self.new }
        ensures holds { IfOk result (λ i. Holds self.new i (shown.Integer n)) }
        ensures stays { take (length self.old) self.new ≡ self.old }
    {
        let what = Shown::Integer(n);
        match self.find(&what)? {
            Some(index) => Ok(index),
            None => self.put(Entry::Integer(n), &what),
        }
    }

    /// The index of the long.
    ///
    /// # Errors
    /// `Full` exactly where an index would pass 65,534, `Memory` for want of memory.
    #[tactic(auto, unfolding(crate::specs::Enter::long))]
    pub fn long(&mut self, n: i64) -> Result<u16, PoolErr>
        ensures does { Enters (spec.long n self.old) result self.old self.new }
        ensures holds { IfOk result (λ i. Holds self.new i (shown.Long n)) }
        ensures stays { take (length self.old) self.new ≡ self.old }
    {
        let what = Shown::Long(n);
        match self.find(&what)? {
            Some(index) => Ok(index),
            None => self.put_two(Entry::Long(n), &what),
        }
    }

    /// The index of the class of that name.
    ///
    /// # Errors
    /// `Full` exactly where an index would pass 65,534, `Memory` for want of memory.
    pub fn class(&mut self, name: &Text) -> Result<u16, PoolErr>
        ensures does { Enters (spec.class name.now self.old) result self.old self.new }
        ensures holds { IfOk result (λ i. Holds self.new i (shown.Class name.now)) }
        ensures stays { take (length self.old) self.new ≡ self.old }
    {
        let len = self.entries().len();
        match self.class_in(name) {
            Ok(index) => Ok(index),
            Err(fault) => {
                self.cut(len);
                Err(fault)
            }
        }
    }

    /// The index of the string of that text.
    ///
    /// # Errors
    /// `Full` exactly where an index would pass 65,534, `Memory` for want of memory.
    pub fn string(&mut self, text: &Text) -> Result<u16, PoolErr>
        ensures does { Enters (spec.string text.now self.old) result self.old self.new }
        ensures holds { IfOk result (λ i. Holds self.new i (shown.Str text.now)) }
        ensures stays { take (length self.old) self.new ≡ self.old }
    {
        let len = self.entries().len();
        match self.string_in(text) {
            Ok(index) => Ok(index),
            Err(fault) => {
                self.cut(len);
                Err(fault)
            }
        }
    }

    /// The index of the name with that descriptor.
    ///
    /// # Errors
    /// `Full` exactly where an index would pass 65,534, `Memory` for want of memory.
    pub fn name_type(&mut self, name: &Text, descriptor: &Text) -> Result<u16, PoolErr>
        ensures does { Enters (spec.name_type name.now descriptor.now self.old) result self.old self.new }
        ensures holds { IfOk result (λ i. Holds self.new i (shown.NameType name.now descriptor.now)) }
        ensures stays { take (length self.old) self.new ≡ self.old }
    {
        let len = self.entries().len();
        match self.name_type_in(name, descriptor) {
            Ok(index) => Ok(index),
            Err(fault) => {
                self.cut(len);
                Err(fault)
            }
        }
    }

    /// The index of the field of that class, name and descriptor.
    ///
    /// # Errors
    /// `Full` exactly where an index would pass 65,534, `Memory` for want of memory.
    pub fn field(&mut self, class: &Text, name: &Text, descriptor: &Text) -> Result<u16, PoolErr>
        ensures does { Enters (spec.field class.now name.now descriptor.now self.old) result self.old self.new }
        ensures holds { IfOk result (λ i. Holds self.new i (shown.Field class.now name.now descriptor.now)) }
        ensures stays { take (length self.old) self.new ≡ self.old }
    {
        let len = self.entries().len();
        match self.field_in(class, name, descriptor) {
            Ok(index) => Ok(index),
            Err(fault) => {
                self.cut(len);
                Err(fault)
            }
        }
    }

    /// The index of the method of that class, name and descriptor.
    ///
    /// # Errors
    /// `Full` exactly where an index would pass 65,534, `Memory` for want of memory.
    pub fn method(&mut self, class: &Text, name: &Text, descriptor: &Text) -> Result<u16, PoolErr>
        ensures does { Enters (spec.method class.now name.now descriptor.now self.old) result self.old self.new }
        ensures holds { IfOk result (λ i. Holds self.new i (shown.Method class.now name.now descriptor.now)) }
        ensures stays { take (length self.old) self.new ≡ self.old }
    {
        let len = self.entries().len();
        match self.method_in(class, name, descriptor) {
            Ok(index) => Ok(index),
            Err(fault) => {
                self.cut(len);
                Err(fault)
            }
        }
    }

    /// The index of an entry that shows this.
    ///
    /// # Errors
    /// `Full` exactly where an index would pass 65,534, `Memory` for want of memory.
    pub fn enter(&mut self, what: &Shown) -> Result<u16, PoolErr>
        ensures does { Enters (enter what.now self.old) result self.old self.new }
        ensures holds { IfOk result (λ i. Holds self.new i what.now) }
        ensures stays { take (length self.old) self.new ≡ self.old }
    {
        match what {
            Shown::Text(text) => self.utf8(text),
            Shown::Integer(n) => self.integer(*n),
            Shown::Long(n) => self.long(*n),
            Shown::Class(name) => self.class(name),
            Shown::Str(text) => self.string(text),
            Shown::NameType(name, descriptor) => self.name_type(name, descriptor),
            Shown::Field(class, name, descriptor) => self.field(class, name, descriptor),
            Shown::Method(class, name, descriptor) => self.method(class, name, descriptor),
        }
    }

    #[tactic(auto, unfolding(crate::specs::Enter::class))]
    fn class_in(&mut self, name: &Text) -> Result<u16, PoolErr>
        ensures does { Steps (spec.class name.now self.old) result self.new }
        ensures holds { IfOk result (λ i. Holds self.new i (shown.Class name.now)) }
        ensures stays { take (length self.old) self.new ≡ self.old }
    {
        let what = Shown::Class(name.try_copy(self.alloc())?);
        match self.find(&what)? {
            Some(index) => Ok(index),
            None => self.new_class(name, &what),
        }
    }

    #[tactic(auto, using(crate::proofs::Steps::stays_then, crate::proofs::Shows::text_put))]
    fn new_class(&mut self, name: &Text, what: &Shown) -> Result<u16, PoolErr>
        requires { what.now ≡ shown.Class name.now }
        ensures does { Steps (after (spec.utf8 name.now self.old) (λ n fs. put (entry.Class n) fs)) result self.new }
        ensures holds { IfOk result (λ i. Holds self.new i what.now) }
        ensures stays { take (length self.old) self.new ≡ self.old }
    {
        match self.utf8(name) {
            Ok(n) => self.put(Entry::Class(n), what),
            Err(fault) => Err(fault),
        }
    }

    #[tactic(auto, unfolding(crate::specs::Enter::string))]
    fn string_in(&mut self, text: &Text) -> Result<u16, PoolErr>
        ensures does { Steps (spec.string text.now self.old) result self.new }
        ensures holds { IfOk result (λ i. Holds self.new i (shown.Str text.now)) }
        ensures stays { take (length self.old) self.new ≡ self.old }
    {
        let what = Shown::Str(text.try_copy(self.alloc())?);
        match self.find(&what)? {
            Some(index) => Ok(index),
            None => self.new_string(text, &what),
        }
    }

    #[tactic(auto, using(crate::proofs::Steps::stays_then, crate::proofs::Shows::string_put))]
    fn new_string(&mut self, text: &Text, what: &Shown) -> Result<u16, PoolErr>
        requires { what.now ≡ shown.Str text.now }
        ensures does { Steps (after (spec.utf8 text.now self.old) (λ n fs. put (entry.Str n) fs)) result self.new }
        ensures holds { IfOk result (λ i. Holds self.new i what.now) }
        ensures stays { take (length self.old) self.new ≡ self.old }
    {
        match self.utf8(text) {
            Ok(n) => self.put(Entry::Str(n), what),
            Err(fault) => Err(fault),
        }
    }

    #[tactic(auto, unfolding(crate::specs::Enter::name_type))]
    fn name_type_in(&mut self, name: &Text, descriptor: &Text) -> Result<u16, PoolErr>
        ensures does { Steps (spec.name_type name.now descriptor.now self.old) result self.new }
        ensures holds { IfOk result (λ i. Holds self.new i (shown.NameType name.now descriptor.now)) }
        ensures stays { take (length self.old) self.new ≡ self.old }
    {
        let what = Shown::NameType(
            name.try_copy(self.alloc())?,
            descriptor.try_copy(self.alloc())?,
        );
        match self.find(&what)? {
            Some(index) => Ok(index),
            None => self.new_name_type(name, descriptor, &what),
        }
    }

    #[tactic(auto, using(crate::proofs::Steps::stays_then))]
    fn new_name_type(
        &mut self,
        name: &Text,
        descriptor: &Text,
        what: &Shown,
    ) -> Result<u16, PoolErr>
        requires { what.now ≡ shown.NameType name.now descriptor.now }
        ensures does { Steps (after (spec.utf8 name.now self.old) (λ n fs. after (spec.utf8 descriptor.now fs) (λ d gs. put (entry.NameType n d) gs))) result self.new }
        ensures holds { IfOk result (λ i. Holds self.new i what.now) }
        ensures stays { take (length self.old) self.new ≡ self.old }
    {
        match self.utf8(name) {
            Ok(n) => self.descriptor_in(n, name, descriptor, what),
            Err(fault) => Err(fault),
        }
    }

    #[tactic(auto, using(crate::proofs::Steps::stays_then, crate::proofs::Shows::pair_put))]
    fn descriptor_in(
        &mut self,
        n: u16,
        name: &Text,
        descriptor: &Text,
        what: &Shown,
    ) -> Result<u16, PoolErr>
        requires what { what.now ≡ shown.NameType name.now descriptor.now }
        requires name { Holds self.old n (shown.Text name.now) }
        ensures does { Steps (after (spec.utf8 descriptor.now self.old) (λ d gs. put (entry.NameType n d) gs)) result self.new }
        ensures holds { IfOk result (λ i. Holds self.new i what.now) }
        ensures stays { take (length self.old) self.new ≡ self.old }
    {
        match self.utf8(descriptor) {
            Ok(d) => self.put(Entry::NameType(n, d), what),
            Err(fault) => Err(fault),
        }
    }

    #[tactic(auto, unfolding(crate::specs::Enter::field))]
    fn field_in(&mut self, class: &Text, name: &Text, descriptor: &Text) -> Result<u16, PoolErr>
        ensures does { Steps (spec.field class.now name.now descriptor.now self.old) result self.new }
        ensures holds { IfOk result (λ i. Holds self.new i (shown.Field class.now name.now descriptor.now)) }
        ensures stays { take (length self.old) self.new ≡ self.old }
    {
        let what = Shown::Field(
            class.try_copy(self.alloc())?,
            name.try_copy(self.alloc())?,
            descriptor.try_copy(self.alloc())?,
        );
        match self.find(&what)? {
            Some(index) => Ok(index),
            None => self.new_field(class, name, descriptor, &what),
        }
    }

    #[tactic(auto, using(crate::proofs::Steps::stays_then))]
    fn new_field(
        &mut self,
        class: &Text,
        name: &Text,
        descriptor: &Text,
        what: &Shown,
    ) -> Result<u16, PoolErr>
        requires { what.now ≡ shown.Field class.now name.now descriptor.now }
        ensures does { Steps (after (spec.class class.now self.old) (λ c fs. after (spec.name_type name.now descriptor.now fs) (λ n gs. put (entry.Field c n) gs))) result self.new }
        ensures holds { IfOk result (λ i. Holds self.new i what.now) }
        ensures stays { take (length self.old) self.new ≡ self.old }
    {
        match self.class_in(class) {
            Ok(c) => self.field_of(c, class, name, descriptor, what),
            Err(fault) => Err(fault),
        }
    }

    #[tactic(auto, using(crate::proofs::Steps::stays_then, crate::proofs::Shows::field_put))]
    fn field_of(
        &mut self,
        c: u16,
        class: &Text,
        name: &Text,
        descriptor: &Text,
        what: &Shown,
    ) -> Result<u16, PoolErr>
        requires what { what.now ≡ shown.Field class.now name.now descriptor.now }
        requires class { Holds self.old c (shown.Class class.now) }
        ensures does { Steps (after (spec.name_type name.now descriptor.now self.old) (λ n gs. put (entry.Field c n) gs)) result self.new }
        ensures holds { IfOk result (λ i. Holds self.new i what.now) }
        ensures stays { take (length self.old) self.new ≡ self.old }
    {
        match self.name_type_in(name, descriptor) {
            Ok(n) => self.put(Entry::Field(c, n), what),
            Err(fault) => Err(fault),
        }
    }

    #[tactic(auto, unfolding(crate::specs::Enter::method))]
    fn method_in(&mut self, class: &Text, name: &Text, descriptor: &Text) -> Result<u16, PoolErr>
        ensures does { Steps (spec.method class.now name.now descriptor.now self.old) result self.new }
        ensures holds { IfOk result (λ i. Holds self.new i (shown.Method class.now name.now descriptor.now)) }
        ensures stays { take (length self.old) self.new ≡ self.old }
    {
        let what = Shown::Method(
            class.try_copy(self.alloc())?,
            name.try_copy(self.alloc())?,
            descriptor.try_copy(self.alloc())?,
        );
        match self.find(&what)? {
            Some(index) => Ok(index),
            None => self.new_method(class, name, descriptor, &what),
        }
    }

    #[tactic(auto, using(crate::proofs::Steps::stays_then))]
    fn new_method(
        &mut self,
        class: &Text,
        name: &Text,
        descriptor: &Text,
        what: &Shown,
    ) -> Result<u16, PoolErr>
        requires { what.now ≡ shown.Method class.now name.now descriptor.now }
        ensures does { Steps (after (spec.class class.now self.old) (λ c fs. after (spec.name_type name.now descriptor.now fs) (λ n gs. put (entry.Method c n) gs))) result self.new }
        ensures holds { IfOk result (λ i. Holds self.new i what.now) }
        ensures stays { take (length self.old) self.new ≡ self.old }
    {
        match self.class_in(class) {
            Ok(c) => self.method_of(c, class, name, descriptor, what),
            Err(fault) => Err(fault),
        }
    }

    #[tactic(auto, using(crate::proofs::Steps::stays_then, crate::proofs::Shows::method_put))]
    fn method_of(
        &mut self,
        c: u16,
        class: &Text,
        name: &Text,
        descriptor: &Text,
        what: &Shown,
    ) -> Result<u16, PoolErr>
        requires what { what.now ≡ shown.Method class.now name.now descriptor.now }
        requires class { Holds self.old c (shown.Class class.now) }
        ensures does { Steps (after (spec.name_type name.now descriptor.now self.old) (λ n gs. put (entry.Method c n) gs)) result self.new }
        ensures holds { IfOk result (λ i. Holds self.new i what.now) }
        ensures stays { take (length self.old) self.new ≡ self.old }
    {
        match self.name_type_in(name, descriptor) {
            Ok(n) => self.put(Entry::Method(c, n), what),
            Err(fault) => Err(fault),
        }
    }
}
