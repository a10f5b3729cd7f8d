//! What stands in the properties by which a device names what it waits for.
ghost use Rattle.std.specs.Prelude.{◌≡◌};
ghost use Rattle.std.specs.Option.{option_map};
ghost use Rattle.dt_tree.specs.PhandleProperties.View.{link_data, listing_data as listed_data};
ghost use Rattle.bus_links.specs.Bindings.Bindings.{binding_of, is_optional, listing_in};
ghost use Rattle.bus_links.specs.Bindings.Mentions.{counts, is_interrupt};
ghost use Rattle.bus_links.specs.Bindings.BindingView.{binding_data, is_strict, listing_data};

use dt_tree::phandle_properties::{Asker, Link, Listing as Listed, Row};

/// What a property's value lists.
#[derive(Clone, Copy, Debug)]
pub enum Listing {
    /// Phandles, each with as many cells behind it as the property of this name of its node says.
    Counted(&'static [u8]),
    /// The same, of entries that may be left empty.
    Sparse(&'static [u8]),
    /// Phandles alone.
    Bare,
    /// Entries of four cells, the second of which is a phandle.
    Mapped,
    /// Interrupts that name their controllers.
    Controllers,
    /// Interrupts of the node's interrupt parent.
    Lines,
}

/// Whether optional bindings count.
#[derive(Clone, Copy, Debug, PartialEq, Eq)]
pub enum Strictness {
    /// They don't, as Linux has it by itself.
    Usual,
    /// They do, as with Linux's `fw_devlink.strict=1`.
    Strict,
}

impl Strictness {
    /// Whether optional bindings count.
    pub fn is_strict(self) -> bool
        ensures { result ≡ is_strict self }
    {
        match self {
            Strictness::Usual => false,
            Strictness::Strict => true,
        }
    }
}

/// What a property's value lists, and whether it counts only where links are strict.
#[derive(Clone, Copy, Debug)]
pub struct Binding {
    listing: Listing,
    optional: bool,
}

// Where one phandle is wanted, Linux takes as many as there are.
fn listing_in(listed: Listed) -> Listing
    ensures { listing_data result ≡ listing_in (listed_data listed) }
{
    match listed {
        Listed::Counted(cells) => Listing::Counted(cells),
        Listed::Sparse(cells) => Listing::Sparse(cells),
        Listed::Bare => Listing::Bare,
        Listed::Single => Listing::Bare,
        Listed::Endpoint => Listing::Bare,
        Listed::Mapped => Listing::Mapped,
        Listed::Controllers => Listing::Controllers,
        Listed::Lines => Listing::Lines,
    }
}

fn is_optional(link: Link) -> bool
    ensures { result ≡ is_optional (link_data link) }
{
    match link {
        Link::Unlinked => false,
        Link::Needed => false,
        Link::Optional => true,
    }
}

impl Binding {
    /// The binding of the property of this name.
    pub fn of(name: &[u8]) -> Option<Binding>
        ensures { option_map binding_data result ≡ binding_of name.now }
    {
        match Row::of(Asker::Links, name) {
            None => None,
            Some(row) => Some(Binding {
                listing: listing_in(row.listing()),
                optional: is_optional(row.link()),
            }),
        }
    }

    /// What the property lists.
    pub fn listing(&self) -> Listing
        ensures { listing_data result ≡ (binding_data self.now).listing }
    {
        self.listing
    }

    /// Whether it lists interrupts.
    pub fn is_interrupt(&self) -> bool
        ensures { result ≡ is_interrupt (binding_data self.now).listing }
    {
        match self.listing {
            Listing::Controllers | Listing::Lines => true,
            _ => false,
        }
    }

    /// Whether it counts.
    pub fn counts(&self, strictness: Strictness) -> bool
        ensures { result ≡ counts (is_strict strictness) (binding_data self.now) }
    {
        !self.optional || strictness.is_strict()
    }
}
