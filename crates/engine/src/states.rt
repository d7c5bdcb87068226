// A draft takes entries and terms; a closed book answers factors. Each is moved into the other: by a rule of the project
// two plain types, and no state parameter.
use book::kinds::Book;

#[derive(Drop)]
pub struct Draft {
    pub(crate) book: Book,
}

#[derive(Drop)]
pub struct Closed {
    pub(crate) book: Book,
}
