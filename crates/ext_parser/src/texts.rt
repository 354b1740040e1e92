use item_types::Seq;
use step_lang::{Body, Method};

/// The trees of a file's texts: a list of methods for each recorder, and a body for each step.
#[derive(Drop)]
pub struct Texts {
    pub lists: Seq<Seq<Method>>,
    pub bodies: Seq<Body>,
}
