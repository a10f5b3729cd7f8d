//! What the values hold that name nodes.
ghost use Rattle.std.specs.Prelude.{◌≡◌};
ghost use Rattle.std.specs.Option.{option_map};
ghost use Rattle.dt_tree.specs.PhandleProperties.View.{listing_data};
ghost use Rattle.dtman_blobs.specs.Difference.Forms.{cells_before, form_in, reference_form};
ghost use Rattle.dtman_blobs.specs.Difference.Private.FormView.{form_data};

use dt_tree::phandle_properties::{Asker, Listing, Row};

/// What a property holds.
#[derive(Clone, Copy, Debug)]
pub enum Form {
    /// Phandles, each with as many cells behind it as the property of this name of its node says.
    Counted(&'static [u8]),
    /// Phandles alone.
    Bare,
    /// Entries of four cells, the second of which is a phandle.
    Mapped,
}

impl Form {
    // What a listing holds.
    fn within(listing: Listing) -> Option<Form>
        ensures { option_map form_data result ≡ form_in (listing_data listing) }
    {
        match listing {
            Listing::Counted(cells) => Some(Form::Counted(cells)),
            Listing::Sparse(cells) => Some(Form::Counted(cells)),
            Listing::Controllers => Some(Form::Counted(b"#interrupt-cells")),
            Listing::Bare => Some(Form::Bare),
            Listing::Single => Some(Form::Bare),
            Listing::Endpoint => Some(Form::Bare),
            Listing::Mapped => Some(Form::Mapped),
            Listing::Lines => None,
        }
    }

    /// What the property of this name holds, where it holds phandles.
    pub fn of(name: &[u8]) -> Option<Form>
        ensures { option_map form_data result ≡ reference_form name.now }
    {
        match Row::of(Asker::Values, name) {
            None => None,
            Some(row) => Form::within(row.listing()),
        }
    }

    /// How many cells stand before the first phandle.
    pub fn cells_before(self) -> u32
        ensures { result ≡ cells_before (form_data self) }
    {
        match self {
            Form::Mapped => 1,
            Form::Counted(_) => 0,
            Form::Bare => 0,
        }
    }
}
