ghost use Rattle.std.specs.Prelude.{◌≡◌};
ghost use Rattle.std.specs.Option.{option_map};
ghost use Rattle.dt_tree.specs.PhandleProperties.View.{listing_data};
ghost use Rattle.bus_drivers.specs.Forms.{form_in, form_of};
ghost use Rattle.bus_drivers.specs.References.{is_length};
ghost use Rattle.bus_drivers.specs.SupplierForm.{form_data};

use dt_tree::phandle_properties::{Asker, Listing, Row};

/// What a property's value holds.
#[derive(Clone, Copy, Debug)]
pub enum Form {
    /// Phandles, each with as many cells behind it as the property of this name of its node says.
    Counted(&'static [u8]),
    /// Phandles alone.
    Bare,
    /// One phandle.
    Single,
}

impl Form {
    // What a plan follows of what a property lists.
    fn within(listing: Listing) -> Option<Form>
        ensures { option_map form_data result ≡ form_in (listing_data listing) }
    {
        match listing {
            Listing::Counted(cells) => Some(Form::Counted(cells)),
            Listing::Sparse(cells) => Some(Form::Counted(cells)),
            Listing::Controllers => Some(Form::Counted(b"#interrupt-cells")),
            Listing::Bare => Some(Form::Bare),
            Listing::Single => Some(Form::Single),
            Listing::Endpoint => None,
            Listing::Mapped => None,
            Listing::Lines => None,
        }
    }

    /// What the property of this name holds, where it can name a supplier.
    pub fn of(name: &[u8]) -> Option<Form>
        ensures { option_map form_data result ≡ form_of name.now }
    {
        match Row::of(Asker::Plan, name) {
            None => None,
            Some(row) => Form::within(row.listing()),
        }
    }

    /// Whether a value of so many bytes can hold this.
    pub fn is_length(self, bytes: usize) -> bool
        ensures { result ≡ is_length (form_data self) bytes }
    {
        match self {
            Form::Counted(_) => bytes % 4 == 0,
            Form::Bare => bytes % 4 == 0,
            Form::Single => bytes == 4,
        }
    }
}
