// What is told of a fault: its number, the layer that refused, the place there and the line of the file.
ghost use Rattle.faults.specs.Lines.{layer_name};
ghost use Rattle.std.specs.Prelude.{Some};

use std::fmt;

#[derive(Clone, Copy)]
pub enum Layer {
    Text,
    Circuit,
    Listing,
    Table,
}

// Each fault gives its own by a method `report`; a `From` would be no plainer, and its clauses would have no names.
#[derive(Clone, Copy)]
pub struct Report {
    pub number: u32,
    pub layer: Layer,
    pub place: usize,
    pub line: u32,
}

impl fmt::Display for Layer {
    ghost output = { λ layer. Some (layer_name layer) };

    fn fmt<W: fmt::Write>(&self, f: &mut fmt::Formatter<W>) -> fmt::Result {
        match self {
            Layer::Text => write!(f, "text"),
            Layer::Circuit => write!(f, "circuit"),
            Layer::Listing => write!(f, "listing"),
            Layer::Table => write!(f, "table"),
        }
    }
}
