//! The properties of headings.
ghost use Rattle.std.specs.Prelude.{◌≡◌, ◌<◌};
ghost use Rattle.std.specs.Option.{option_map};
ghost use Rattle.org_outline.specs.Tree.{node_count, tree};
ghost use Rattle.orgs_lists.specs.Filters.{has_property, is_value};

use crate::filter::Property;
use crate::headings::section;
use org_meta::property;
use org_splice::Bytes;
use orgs_entries::Entries;

// Whether a value is the one that is asked for, if one is; none is where there is no property.
fn is_value(asked: &Option<Bytes>, value: Option<&[u8]>) -> bool
    ensures { result ≡ is_value asked.now (option_map (λ value. value.now) value.entry) }
{
    match (asked, value) {
        (_, None) => false,
        (None, Some(_)) => true,
        (Some(asked), Some(value)) => value == asked.as_slice(),
    }
}

/// Whether a heading has a property.
pub(crate) fn has_property(entries: &Entries<'_>, index: usize, asked: &Property) -> bool
    requires { index < node_count (tree entries.now.text) }
    ensures { result ≡ has_property entries.now index asked.now }
{
    is_value(
        &asked.value,
        property(section(entries, index), asked.name.as_slice()),
    )
}
