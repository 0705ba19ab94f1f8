//! Items in order of key, each key once, found by halving.
ghost use Rattle.std.specs.Prelude.{◌≡◌, ◌==◌, find, IfOk, IfErr};
ghost use Rattle.tx_map.specs.Order.{IsAt, IsGapFor, IsRising};

use dtx_values::Numbered;

/// Where the key is, or where it would go.
pub fn search<T: Numbered>(items: &[T], key: u32) -> Result<usize, usize>
    requires { IsRising T.key items.now }
    ensures found { IfOk result (IsAt T.key items.now key) }
    ensures absent { IfErr result (IsGapFor T.key items.now key) }
{
    items.binary_search_by_key(&key, |x| x.number())
}

/// The item of the key, where there is one.
pub fn find_by_key<T: Numbered + Copy>(items: &[T], key: u32) -> Option<T>
    requires { IsRising T.key items.now }
    ensures { result ≡ find (λ x. T.key x == key) items.now }
{
    match search(items, key) {
        Ok(at) => Some(items[at]),
        Err(_) => None,
    }
}
