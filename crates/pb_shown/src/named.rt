// What a name stands for in a book.
ghost use Rattle.std.specs.Prelude.{◌≡◌, None, Some, true, position, IfSome};
ghost use Rattle.pb_rows.specs.Name.{is_name, same_name};
ghost use Rattle.pb_book.specs.Rows.{declared_of, facts_of, period_place};
ghost use Rattle.pb_site.specs.Site.{arc_names, node_of};
ghost use Rattle.pb_facts.specs.Facts.{live_place_of};

use pb_book::Book;
use pb_rows::Name;

/// The place of the node that a text names, 0 for a boundary; `None` iff the text is no name or names no node.
pub fn node_named(book: &Book, text: &[u8]) -> Option<u32>
    ensures value { IfSome result (λ place.
        node_of (declared_of book.now) text.now ≡ Some place) }
    ensures none { result ≡ None → is_name text.now ≡ true
        → node_of (declared_of book.now) text.now ≡ None }
{
    match Name::read(text) {
        Some(name) => book.site().node_of(&name),
        None => None,
    }
}

/// The place of the stream or tank that a text names; `None` iff the text is no name or names none.
pub fn stream_named(book: &Book, text: &[u8]) -> Option<u32>
    ensures value { IfSome result (λ place.
        position (same_name text.now) (arc_names (declared_of book.now)) ≡ Some place) }
    ensures none { result ≡ None → is_name text.now ≡ true
        → position (same_name text.now) (arc_names (declared_of book.now)) ≡ None }
{
    match Name::read(text) {
        Some(name) => book.site().arc_of(&name),
        None => None,
    }
}

/// The place of the period that a text names; `None` iff the text is no name or names none.
pub fn period_named(book: &Book, text: &[u8]) -> Option<u32>
    ensures value { IfSome result (λ place. period_place book.now text.now ≡ Some place) }
    ensures none { result ≡ None → is_name text.now ≡ true
        → period_place book.now text.now ≡ None }
{
    match Name::read(text) {
        Some(name) => book.period_of(&name),
        None => None,
    }
}

/// The place of the live fact that has this id; `None` iff the text is no name or the id of no live fact.
pub fn fact_named(book: &Book, text: &[u8]) -> Option<u32>
    ensures value { IfSome result (λ place.
        live_place_of text.now (facts_of book.now) ≡ Some place) }
    ensures none { result ≡ None → is_name text.now ≡ true
        → live_place_of text.now (facts_of book.now) ≡ None }
{
    match Name::read(text) {
        Some(name) => book.facts().find(&name),
        None => None,
    }
}
