//! Rows of items.

use crate::{
    Crate, EnumId, EnumVariantId, GenericParamId, List, NoMemory, Text, TraitId, TryClone, Ty,
};
use std::alloc::Global;

/// A crate.
#[derive(Clone, Copy, PartialEq, Eq, PartialOrd, Ord, Hash)]
pub struct CrateRow {
    /// The size of a pointer of the crate's target, where it is known.
    pub pointer_bytes: Option<u64>,
}

/// The types of a function's parameters, `self` included, and of its result.
#[derive(PartialEq, Eq, PartialOrd, Ord, Hash)]
pub struct FnSig {
    pub params: List<Ty>,
    pub ret: Ty,
}

impl Drop for FnSig {
    fn drop(self) {
        let FnSig {
            params: _params,
            ret: _ret,
        } = self;
    }
}

/// A function.
#[derive(PartialEq, Eq, PartialOrd, Ord, Hash)]
pub struct FunctionRow {
    pub name: Text,
    pub krate: Crate,
    /// The trait that declares it.
    pub in_trait: Option<TraitId>,
    /// The parent's first.
    pub generics: List<GenericParamId>,
    pub sig: FnSig,
    /// What the machine does in place of running a body.
    pub special: Option<Special>,
    /// A place in `HirDatabase::bodies`.
    pub body: Option<u32>,
}

impl Drop for FunctionRow {
    fn drop(self) {
        let FunctionRow {
            name: _name,
            krate: _krate,
            in_trait: _in_trait,
            generics: _generics,
            sig: _sig,
            special: _special,
            body: _body,
        } = self;
    }
}

/// A constant.
#[derive(PartialEq, Eq, PartialOrd, Ord, Hash)]
pub struct ConstRow {
    pub name: Option<Text>,
    pub krate: Crate,
    /// The parent's first.
    pub generics: List<GenericParamId>,
    pub ty: Ty,
    /// A place in `HirDatabase::bodies`.
    pub body: Option<u32>,
}

impl Drop for ConstRow {
    fn drop(self) {
        let ConstRow {
            name: _name,
            krate: _krate,
            generics: _generics,
            ty: _ty,
            body: _body,
        } = self;
    }
}

/// A static.
#[derive(PartialEq, Eq, PartialOrd, Ord, Hash)]
pub struct StaticRow {
    pub name: Text,
    pub krate: Crate,
    pub ty: Ty,
    /// Whether it stands in an `extern` block.
    pub is_extern: bool,
    /// A place in `HirDatabase::bodies`.
    pub body: Option<u32>,
}

impl Drop for StaticRow {
    fn drop(self) {
        let StaticRow {
            name: _name,
            krate: _krate,
            ty: _ty,
            is_extern: _is_extern,
            body: _body,
        } = self;
    }
}

/// A field of a struct, union or variant.
#[derive(PartialEq, Eq, PartialOrd, Ord, Hash)]
pub struct FieldRow {
    pub name: Text,
    pub ty: Ty,
}

impl Drop for FieldRow {
    fn drop(self) {
        let FieldRow {
            name: _name,
            ty: _ty,
        } = self;
    }
}

/// How fields are written.
#[derive(Clone, Copy, PartialEq, Eq, PartialOrd, Ord, Hash)]
pub enum FieldsShape {
    Record,
    Tuple,
    Unit,
}

/// A struct or a union.
#[derive(PartialEq, Eq, PartialOrd, Ord, Hash)]
pub struct StructRow {
    pub name: Text,
    pub fields: List<FieldRow>,
    pub shape: FieldsShape,
    /// Whether it is `ManuallyDrop`.
    pub manually_drop: bool,
    /// Whether it is `Box`.
    pub is_box: bool,
}

impl Drop for StructRow {
    fn drop(self) {
        let StructRow {
            name: _name,
            fields: _fields,
            shape: _shape,
            manually_drop: _manually_drop,
            is_box: _is_box,
        } = self;
    }
}

/// An enum.
#[derive(PartialEq, Eq, PartialOrd, Ord, Hash)]
pub struct EnumRow {
    pub name: Text,
    /// Whether the type of its discriminants is signed, where the source names one.
    pub repr_signed: Option<bool>,
    pub variants: List<EnumVariantId>,
}

impl Drop for EnumRow {
    fn drop(self) {
        let EnumRow {
            name: _name,
            repr_signed: _repr_signed,
            variants: _variants,
        } = self;
    }
}

/// A variant of an enum.
#[derive(PartialEq, Eq, PartialOrd, Ord, Hash)]
pub struct VariantRow {
    pub name: Text,
    pub krate: Crate,
    pub parent: EnumId,
    /// Its place among the enum's variants.
    pub index: u32,
    pub fields: List<FieldRow>,
    pub shape: FieldsShape,
    /// The body of its discriminant, a place in `HirDatabase::bodies`.
    pub body: Option<u32>,
}

impl Drop for VariantRow {
    fn drop(self) {
        let VariantRow {
            name: _name,
            krate: _krate,
            parent: _parent,
            index: _index,
            fields: _fields,
            shape: _shape,
            body: _body,
        } = self;
    }
}

/// A const parameter.
#[derive(PartialEq, Eq, PartialOrd, Ord, Hash)]
pub struct ConstParamRow {
    pub name: Text,
    pub ty: Ty,
}

impl Drop for ConstParamRow {
    fn drop(self) {
        let ConstParamRow {
            name: _name,
            ty: _ty,
        } = self;
    }
}

/// Functions that the machine does itself.
#[derive(PartialEq, Eq, PartialOrd, Ord, Hash)]
pub enum Special {
    SizeOf,
    Transmute,
    WrappingAdd,
    AddWithOverflow,
    SaturatingAdd,
    SaturatingSub,
    CopyNonoverlapping,
    WriteBytes,
    Memcmp,
    SliceLen,
    Write,
    Panic,
    /// One that the machine knows by name alone.
    Other(Text),
}

impl Drop for Special {
    fn drop(self) {
        match self {
            Special::Other(_part) => {}
            Special::SizeOf
            | Special::Transmute
            | Special::WrappingAdd
            | Special::AddWithOverflow
            | Special::SaturatingAdd
            | Special::SaturatingSub
            | Special::CopyNonoverlapping
            | Special::WriteBytes
            | Special::Memcmp
            | Special::SliceLen
            | Special::Write
            | Special::Panic => {}
        }
    }
}

impl TryClone for CrateRow {
    fn try_clone(&self, _alloc: Global) -> Result<CrateRow, NoMemory> {
        Ok(*self)
    }
}

impl TryClone for FnSig {
    fn try_clone(&self, alloc: Global) -> Result<FnSig, NoMemory> {
        Ok(FnSig {
            params: self.params.try_clone(alloc)?,
            ret: self.ret.try_clone(alloc)?,
        })
    }
}

impl TryClone for FunctionRow {
    fn try_clone(&self, alloc: Global) -> Result<FunctionRow, NoMemory> {
        Ok(FunctionRow {
            name: self.name.try_clone(alloc)?,
            krate: self.krate,
            in_trait: self.in_trait,
            generics: self.generics.try_clone(alloc)?,
            sig: self.sig.try_clone(alloc)?,
            special: self.special.try_clone(alloc)?,
            body: self.body,
        })
    }
}

impl TryClone for ConstRow {
    fn try_clone(&self, alloc: Global) -> Result<ConstRow, NoMemory> {
        Ok(ConstRow {
            name: self.name.try_clone(alloc)?,
            krate: self.krate,
            generics: self.generics.try_clone(alloc)?,
            ty: self.ty.try_clone(alloc)?,
            body: self.body,
        })
    }
}

impl TryClone for StaticRow {
    fn try_clone(&self, alloc: Global) -> Result<StaticRow, NoMemory> {
        Ok(StaticRow {
            name: self.name.try_clone(alloc)?,
            krate: self.krate,
            ty: self.ty.try_clone(alloc)?,
            is_extern: self.is_extern,
            body: self.body,
        })
    }
}

impl TryClone for FieldRow {
    fn try_clone(&self, alloc: Global) -> Result<FieldRow, NoMemory> {
        Ok(FieldRow {
            name: self.name.try_clone(alloc)?,
            ty: self.ty.try_clone(alloc)?,
        })
    }
}

impl TryClone for FieldsShape {
    fn try_clone(&self, _alloc: Global) -> Result<FieldsShape, NoMemory> {
        Ok(*self)
    }
}

impl TryClone for StructRow {
    fn try_clone(&self, alloc: Global) -> Result<StructRow, NoMemory> {
        Ok(StructRow {
            name: self.name.try_clone(alloc)?,
            fields: self.fields.try_clone(alloc)?,
            shape: self.shape,
            manually_drop: self.manually_drop,
            is_box: self.is_box,
        })
    }
}

impl TryClone for EnumRow {
    fn try_clone(&self, alloc: Global) -> Result<EnumRow, NoMemory> {
        Ok(EnumRow {
            name: self.name.try_clone(alloc)?,
            repr_signed: self.repr_signed,
            variants: self.variants.try_clone(alloc)?,
        })
    }
}

impl TryClone for VariantRow {
    fn try_clone(&self, alloc: Global) -> Result<VariantRow, NoMemory> {
        Ok(VariantRow {
            name: self.name.try_clone(alloc)?,
            krate: self.krate,
            parent: self.parent,
            index: self.index,
            fields: self.fields.try_clone(alloc)?,
            shape: self.shape,
            body: self.body,
        })
    }
}

impl TryClone for ConstParamRow {
    fn try_clone(&self, alloc: Global) -> Result<ConstParamRow, NoMemory> {
        Ok(ConstParamRow {
            name: self.name.try_clone(alloc)?,
            ty: self.ty.try_clone(alloc)?,
        })
    }
}

impl TryClone for Special {
    fn try_clone(&self, alloc: Global) -> Result<Special, NoMemory> {
        match self {
            Special::SizeOf => Ok(Special::SizeOf),
            Special::Transmute => Ok(Special::Transmute),
            Special::WrappingAdd => Ok(Special::WrappingAdd),
            Special::AddWithOverflow => Ok(Special::AddWithOverflow),
            Special::SaturatingAdd => Ok(Special::SaturatingAdd),
            Special::SaturatingSub => Ok(Special::SaturatingSub),
            Special::CopyNonoverlapping => Ok(Special::CopyNonoverlapping),
            Special::WriteBytes => Ok(Special::WriteBytes),
            Special::Memcmp => Ok(Special::Memcmp),
            Special::SliceLen => Ok(Special::SliceLen),
            Special::Write => Ok(Special::Write),
            Special::Panic => Ok(Special::Panic),
            Special::Other(text) => Ok(Special::Other(text.try_clone(alloc)?)),
        }
    }
}
