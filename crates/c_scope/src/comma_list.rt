//! Lists with a comma between each two items.
ghost use Rattle.std.specs.Prelude.{◌≡◌, length};
ghost use Rattle.c_scope.specs.Rows.{comma_items};

use c_grammar::statement::CommaList;

/// How many they are.
pub fn item_count<T>(list: &CommaList<T>) -> usize
    ensures { result ≡ length (comma_items list.now) }
{
    list.more.len() + 1
}
