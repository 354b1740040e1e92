ghost use Rattle.std.specs.Prelude.{◌≡◌, List, ℕ};

use ext_draft::{DraftConsume, DraftMethod, DraftProduce, DraftRecorder, DraftStep};
use item_types::{BeanDecl, ItemDecl, Text};

/// What a name is given to, or what names an item.
pub trait Named: Drop {
    // the name
    ghost named: { Self → List ℕ };

    /// The name. It takes no memory.
    fn named(&self) -> &str
        ensures { result.now ≡ named self.now };
}

impl Named for ItemDecl {
    ghost named = { λ i. i.name };

    fn named(&self) -> &str {
        self.name.as_str()
    }
}

impl Named for BeanDecl {
    ghost named = { λ b. b.name };

    fn named(&self) -> &str {
        self.name.as_str()
    }
}

impl Named for DraftMethod {
    ghost named = { λ m. m.name };

    fn named(&self) -> &str {
        self.name.as_str()
    }
}

impl Named for DraftRecorder {
    ghost named = { λ r. r.name };

    fn named(&self) -> &str {
        self.name.as_str()
    }
}

impl Named for DraftStep {
    ghost named = { λ s. s.name };

    fn named(&self) -> &str {
        self.name.as_str()
    }
}

impl Named for DraftConsume {
    ghost named = { λ c. c.item };

    fn named(&self) -> &str {
        self.item.as_str()
    }
}

impl Named for DraftProduce {
    ghost named = { λ p. p.item };

    fn named(&self) -> &str {
        self.item.as_str()
    }
}

impl Named for Text {
    ghost named = { λ t. t };

    fn named(&self) -> &str {
        self.as_str()
    }
}
