use crate::token::Token;
use sqlite_items::Items;

/// A list with commas: `T { "," T }`. Where the grammar joins by another mark, that stands in the
/// comma's place.
pub struct CommaList<T> {
    pub first: T,
    pub more: Items<Joined<T>>,
}

impl<T: Drop> Drop for CommaList<T> {
    fn drop(self) {
        let CommaList { first, more } = self;
        let _ = first;
        let _ = more;
    }
}

/// A mark and the element after it.
pub struct Joined<T> {
    pub mark: Token,
    pub item: T,
}

impl<T: Drop> Drop for Joined<T> {
    fn drop(self) {
        let Joined { mark: _, item } = self;
        let _ = item;
    }
}
