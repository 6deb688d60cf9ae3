ghost use Rattle.std.specs.Prelude.{◌≡◌, [], ◌∷◌, ◌++◌, IfOk, OnErr, OnOk};
ghost use Rattle.file_text.specs.inside.AttributeLists.{listed};

use crate::Attribute;
use sd_base::Rows;
use std::alloc::{AllocError, Global};
use std::marker::Model;
use std::{mem, slice};

/// The attributes of an element, in their order. One takes no memory of its own.
#[derive(Drop)]
pub struct AttributeList {
    form: Form,
}

/// Where attributes stand.
#[derive(Drop)]
enum Form {
    Nowhere,
    One(Attribute),
    Many(Rows<Attribute>),
}

impl Model for AttributeList {
    ghost use Rattle.std.specs.Prelude.{List};
    ghost use Rattle.file_text.specs.declared.tree.Attribute.{Attribute};
    ghost use Rattle.file_text.specs.inside.AttributeLists.{listed};

    ghost Value = { List Attribute };

    ghost view = { λ l. listed l.form };
}

impl AttributeList {
    pub(crate) fn new() -> AttributeList
        ensures { result ≡ [] }
    {
        AttributeList {
            form: Form::Nowhere,
        }
    }

    /// The attributes in the order of the text.
    pub fn as_slice(&self) -> &[Attribute]
        ensures { result.now ≡ self.now }
    {
        match &self.form {
            Form::Nowhere => &[],
            Form::One(attribute) => slice::from_ref(attribute),
            Form::Many(rows) => rows.as_slice(),
        }
    }

    /// Adds one more. Where there is no memory for it, none is left.
    #[inline(always)]
    pub(crate) fn push(&mut self, alloc: Global, attribute: Attribute) -> Result<(), AllocError>
        ensures ok { OnOk result (self.new ≡ self.old ++ attribute ∷ []) }
        ensures err { OnErr result (self.new ≡ []) }
    {
        if matches!(self.form, Form::Nowhere) {
            self.form = Form::One(attribute);
            return Ok(());
        }
        self.push_further(alloc, attribute)
    }

    /// The same, mostly where there is one.
    #[inline(never)]
    fn push_further(&mut self, alloc: Global, attribute: Attribute) -> Result<(), AllocError>
        ensures ok { OnOk result (self.new ≡ self.old ++ attribute ∷ []) }
        ensures err { OnErr result (self.new ≡ []) }
    {
        let form = mem::replace(&mut self.form, Form::Nowhere);
        let mut rows = rows_of(alloc, form)?;
        rows.push(attribute)?;
        self.form = Form::Many(rows);
        Ok(())
    }
}

/// The attributes as rows.
fn rows_of(alloc: Global, form: Form) -> Result<Rows<Attribute>, AllocError>
    ensures { IfOk result (λ rows. rows ≡ listed form) }
{
    let mut rows = Rows::new(alloc);
    match form {
        Form::Nowhere => Ok(rows),
        Form::One(attribute) => {
            rows.push(attribute)?;
            Ok(rows)
        }
        Form::Many(rows) => Ok(rows),
    }
}
