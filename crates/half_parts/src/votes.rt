//! What the rows say of votes, and of the promotable enlistment.
ghost use Rattle.std.specs.Prelude.{◌≡◌, ◌&&◌, find};
ghost use Rattle.std.specs.List.{list_all};
ghost use Rattle.dtx_values.specs.Class.{is_promotable, is_volatile};
ghost use Rattle.dtx_values.specs.Vote.{voted_well};
ghost use Rattle.dtx_values.specs.Owners.{commits_alone, is_evident};
ghost use Rattle.dtx_model.specs.Acts.{promotable_in};

use dtx_values::{Class, EnlNo, Row};

/// Whether it is volatile and voted yes or done.
fn is_well(x: &Row) -> bool
    ensures { result ≡ (is_volatile x.now.class && voted_well x.now.vote) }
{
    x.class.is_volatile() && x.vote.is_some_and(|v| v.is_good())
}

/// Whether each is volatile and voted yes or done.
fn are_well(rows: &[Row]) -> bool
    ensures { result ≡ list_all (λ x. is_volatile x.class && voted_well x.vote) rows.now }
{
    rows.iter().all(|x| is_well(x))
}

/// Whether evidence by the seal exists, as the rows show it.
pub fn is_evident(sealed: bool, rows: &[Row]) -> bool
    ensures { result ≡ is_evident sealed rows.now }
{
    sealed && are_well(rows)
}

/// Whether the durables and promotables are one durable that can own the commit.
pub fn commits_alone(rows: &[Row]) -> bool
    ensures { result ≡ commits_alone rows.now }
{
    let mut lone = None;
    for x in rows {
        if x.is_lasting() {
            match lone {
                None => lone = Some(x.class),
                Some(_) => return false,
            }
        }
    }
    lone == Some(Class::DurableSingle)
}

/// The row of the promotable enlistment.
fn promotable_row(rows: &[Row]) -> Option<Row>
    ensures { result ≡ find (λ x. is_promotable x.class) rows.now }
{
    rows.iter().copied().find(|x| x.class == Class::Promotable)
}

/// The promotable enlistment.
pub fn first_promotable(rows: &[Row]) -> Option<EnlNo>
    ensures { result ≡ promotable_in rows.now }
{
    promotable_row(rows).map(|x| x.number)
}
