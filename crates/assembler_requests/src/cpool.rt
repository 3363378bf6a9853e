//! CPOOL.

use crate::request::MacroRequest;
use assembler_operands::{Keys, SymbolNames, Unsaid, put_name};
use assembler_values::{Comes, put_number};
use std::fmt::Write;

const KEYS: Keys = Keys {
    said: &["PCELLCT", "SCELLCT", "CSIZE", "SP", "LOC", "CPID", "CELL"],
    left: &["HDR", "MULTIHDR", "KEY", "REGS", "RELATED", "LINKAGE", "MF"],
    authorized: &["TCB", "OWNER"],
};

impl MacroRequest<'_> {
    // Appends the counts and the size of the cells, and where they are.
    fn put_cells(self, text: &mut String) -> Result<(), Unsaid> {
        let size = self.number("CSIZE")?;
        let primary = self.number("PCELLCT")?;
        write!(text, ",CSIZE={size},PCELLCT={primary}")?;
        self.put_number(text, "SCELLCT")?;
        self.put_subpool(text)?;
        self.put_location(text)
    }

    // Converts CPOOL BUILD, and returns where it leaves the identifier.
    fn build(self, names: &mut SymbolNames, text: &mut String) -> Result<Comes, Unsaid> {
        let mut rest = String::new(self.known.alloc);
        self.put_cells(&mut rest)?;
        let comes = self.comes("CPID", "(0)", "POOL")?;
        put_name(names, text, "CPID", comes.symbol())?;
        text.push_str(&rest)?;
        Ok(comes)
    }

    // Appends the name of the pool.
    fn put_pool(self, names: &mut SymbolNames, text: &mut String) -> Result<(), Unsaid> {
        Ok(put_name(names, text, "CPID", self.area("CPID")?)?)
    }

    // Converts CPOOL GET, and returns where it leaves the address of a cell.
    fn get(self, names: &mut SymbolNames, text: &mut String) -> Result<Comes, Unsaid> {
        let form = self.operands.at(1);
        if !["", "C", "COND", "U", "UNCOND"].contains(&form) {
            return Err(self.no_form(form));
        }
        if !form.is_empty() {
            write!(text, ",{form}")?;
        }
        self.put_pool(names, text)?;
        let comes = self.comes("CELL", "(1)", "CELL")?;
        put_name(names, text, "CELL", comes.symbol())?;
        Ok(comes)
    }

    // Converts CPOOL FREE.
    fn free(self, names: &mut SymbolNames, text: &mut String) -> Result<(), Unsaid> {
        self.put_pool(names, text)?;
        Ok(put_name(names, text, "CELL", self.area_or("CELL", "(1)")?)?)
    }

    // Converts a request that leaves nothing.
    fn free_or_delete(
        self,
        names: &mut SymbolNames,
        text: &mut String,
        form: &str,
    ) -> Result<(), Unsaid> {
        match form {
            "FREE" => self.free(names, text),
            "DELETE" => self.put_pool(names, text),
            _ => Err(self.no_form(form)),
        }
    }

    /// Converts CPOOL to a statement, and returns where it leaves an identifier or an address.
    pub fn cpool(
        self,
        names: &mut SymbolNames,
        text: &mut String,
    ) -> Result<Option<Comes>, Unsaid> {
        self.operands.check(&KEYS)?;
        let form = self.operands.at(0);
        write!(text, "CPOOL {form}")?;
        match form {
            "BUILD" => Ok(Some(self.build(names, text)?)),
            "GET" => Ok(Some(self.get(names, text)?)),
            _ => {
                self.free_or_delete(names, text, form)?;
                Ok(None)
            }
        }
    }
}
