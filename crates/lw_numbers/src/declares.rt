// What names of types mean.
ghost use Rattle.lw_numbers.specs.Numbering.{MeansType};
ghost use Rattle.lw_numbers.specs.Tables.{AreNumbersOf};

use crate::Numbers;
use crate::standing::number_ahead;
use lw_base::Name;
use lw_grammar::{Grammar, Interface, UnionDef};

/// What a name of a type means that is declared: an interface or a union, with its place among them,
/// or nothing.
#[derive(Clone, Copy, Drop)]
pub enum Declares<'g> {
    Interface(usize, &'g Interface),
    Union(usize, &'g UnionDef),
    Nothing,
}

impl Numbers {
    /// What the name means among types that are declared, in expected constant time.
    pub fn declared<'g>(&self, g: &'g Grammar, name: &Name) -> Declares<'g>
        requires { AreNumbersOf g.now self.now }
        ensures { MeansType g.now name.now result }
    {
        let interface = self.interfaces.by_name.get(name);
        let union = self.unions.by_name.get(name);
        match number_ahead(interface, union) {
            Some(number) => {
                let place = number as usize;
                Declares::Interface(place, &g.interfaces.as_slice()[place])
            }
            None => match number_ahead(union, interface) {
                Some(number) => {
                    let place = number as usize;
                    Declares::Union(place, &g.unions.as_slice()[place])
                }
                None => Declares::Nothing,
            },
        }
    }
}
