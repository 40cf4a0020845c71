//! The first word of a line, and which instruction it begins.
ghost use Rattle.std.specs.Prelude.{◌≡◌, None};
ghost use Rattle.bpf_asm.specs.Forms.{operation_named, condition_named, plain_form, further_form, neg_form, extension_form, sized_form, width_named, with_width, form_of};

use bpf_isa::{AluOp, Cond, Order, Profile, Size, Width};
use doc_text::is_same;

/// An instruction without its operands.
#[derive(Clone, Copy)]
pub enum Form {
    Alu { width: Width, op: AluOp },
    Neg { width: Width },
    Load { size: Size },
    Wide,
    Goto,
    GotoLong,
    Jump { width: Width, cond: Cond },
    Exit,
    LoadSigned { size: Size },
    MovSigned { width: Width },
    Swap { order: Order },
}

fn operation(name: &[u8]) -> Option<AluOp>
    ensures { result ≡ operation_named name.now }
{
    if is_same(name, b"add") {
        Some(AluOp::Add)
    } else if is_same(name, b"sub") {
        Some(AluOp::Sub)
    } else if is_same(name, b"mul") {
        Some(AluOp::Mul)
    } else if is_same(name, b"div") {
        Some(AluOp::Div)
    } else if is_same(name, b"or") {
        Some(AluOp::Or)
    } else if is_same(name, b"and") {
        Some(AluOp::And)
    } else if is_same(name, b"lsh") {
        Some(AluOp::Lsh)
    } else if is_same(name, b"rsh") {
        Some(AluOp::Rsh)
    } else if is_same(name, b"mod") {
        Some(AluOp::Mod)
    } else if is_same(name, b"xor") {
        Some(AluOp::Xor)
    } else if is_same(name, b"mov") {
        Some(AluOp::Mov)
    } else if is_same(name, b"arsh") {
        Some(AluOp::Arsh)
    } else {
        None
    }
}

fn condition(name: &[u8]) -> Option<Cond>
    ensures { result ≡ condition_named name.now }
{
    if is_same(name, b"jeq") {
        Some(Cond::Eq)
    } else if is_same(name, b"jgt") {
        Some(Cond::Gt)
    } else if is_same(name, b"jge") {
        Some(Cond::Ge)
    } else if is_same(name, b"jset") {
        Some(Cond::Set)
    } else if is_same(name, b"jne") {
        Some(Cond::Ne)
    } else if is_same(name, b"jsgt") {
        Some(Cond::Sgt)
    } else if is_same(name, b"jsge") {
        Some(Cond::Sge)
    } else if is_same(name, b"jlt") {
        Some(Cond::Lt)
    } else if is_same(name, b"jle") {
        Some(Cond::Le)
    } else if is_same(name, b"jslt") {
        Some(Cond::Slt)
    } else if is_same(name, b"jsle") {
        Some(Cond::Sle)
    } else {
        None
    }
}

fn plain(word: &[u8]) -> Option<Form>
    ensures { result ≡ plain_form word.now }
{
    if is_same(word, b"exit") {
        Some(Form::Exit)
    } else if is_same(word, b"ja") {
        Some(Form::Goto)
    } else if is_same(word, b"jal") {
        Some(Form::GotoLong)
    } else if is_same(word, b"wide") {
        Some(Form::Wide)
    } else if is_same(word, b"ldb") {
        Some(Form::Load { size: Size::B })
    } else if is_same(word, b"ldh") {
        Some(Form::Load { size: Size::H })
    } else if is_same(word, b"ldw") {
        Some(Form::Load { size: Size::W })
    } else if is_same(word, b"lddw") {
        Some(Form::Load { size: Size::DW })
    } else {
        None
    }
}

fn further(word: &[u8]) -> Option<Form>
    ensures { result ≡ further_form word.now }
{
    if is_same(word, b"ldsb") {
        Some(Form::LoadSigned { size: Size::B })
    } else if is_same(word, b"ldsh") {
        Some(Form::LoadSigned { size: Size::H })
    } else if is_same(word, b"ldsw") {
        Some(Form::LoadSigned { size: Size::W })
    } else if is_same(word, b"le") {
        Some(Form::Swap {
            order: Order::Little,
        })
    } else if is_same(word, b"be") {
        Some(Form::Swap { order: Order::Big })
    } else if is_same(word, b"swap") {
        Some(Form::Swap { order: Order::Swap })
    } else {
        None
    }
}

fn neg(name: &[u8], width: Width) -> Option<Form>
    ensures { result ≡ neg_form name.now width }
{
    if is_same(name, b"neg") {
        Some(Form::Neg { width })
    } else {
        None
    }
}

fn extension(name: &[u8], width: Width) -> Option<Form>
    ensures { result ≡ extension_form name.now width }
{
    if is_same(name, b"movsx") {
        Some(Form::MovSigned { width })
    } else {
        None
    }
}

fn sized(profile: Profile, name: &[u8], width: Width) -> Option<Form>
    ensures { result ≡ sized_form profile name.now width }
{
    if let Some(op) = operation(name) {
        return Some(Form::Alu { width, op });
    }
    if let Some(cond) = condition(name) {
        return Some(Form::Jump { width, cond });
    }
    if let Some(form) = neg(name, width) {
        return Some(form);
    }
    match profile {
        Profile::One => None,
        Profile::Two => extension(name, width),
    }
}

fn width(digits: &[u8]) -> Option<Width>
    ensures { result ≡ width_named digits.now }
{
    if is_same(digits, b"64") {
        Some(Width::W64)
    } else if is_same(digits, b"32") {
        Some(Width::W32)
    } else {
        None
    }
}

fn named_with_width(profile: Profile, word: &[u8]) -> Option<Form>
    ensures { result ≡ with_width profile word.now }
{
    if word.len() < 2 {
        return None;
    }
    let (name, digits) = word.split_at(word.len() - 2);
    match width(digits) {
        Some(width) => sized(profile, name, width),
        None => None,
    }
}

/// The form that a word begins.
#[tactic(auto, unfolding(crate::specs::Forms::form_of))]
pub fn form_named(profile: Profile, word: &[u8]) -> Option<Form>
    ensures { result ≡ form_of profile word.now }
{
    if let Some(form) = plain(word) {
        return Some(form);
    }
    if let Some(form) = named_with_width(profile, word) {
        return Some(form);
    }
    match profile {
        Profile::One => None,
        Profile::Two => further(word),
    }
}
