// The steps of a composition at a width of numbers, 64 bits and 32, each the function of that width: what it calls once and what
// for each member. What is composed of them is one function for both.
#![tactic(auto)]

ghost use Rattle.std.specs.Prelude.{◌≡◌, refl, ℕ, ◌%◌, ◌^◌, ◌≤◌, List, length, set};
ghost use Rattle.std.proofs.Common.{rules};
ghost use Rattle.util.specs.View.{says};
ghost use Rattle.layout_defs.specs.Layout.{Layout, check_for};
ghost use Rattle.layout_defs.specs.Extend.{extend_for};
ghost use Rattle.layout.specs.declared.DstLayout.{DstLayout};
ghost use Rattle.layout.specs.View.{layout_of, layout_says, check_says};
ghost use Rattle.make.specs.Make.{new_zst_for};
ghost use Rattle.padding_defs.specs.Pad.{pad_for};
ghost use Rattle.record_defs.specs.Record.{decode_for};
ghost use Rattle.compose_defs.specs.Places.{end_of};
ghost use Rattle.steps.specs.End.{end_in, ended};

use layout::DstLayout;
use util::Refusal;

pub trait Steps: Copy {
    // The width, and what a number, a layout and a slice of numbers of it are, over whole numbers.
    ghost bits: { ℕ };

    ghost number: { Self → ℕ };

    ghost layout: { DstLayout Self → Layout };

    ghost numbers: { List Self → List ℕ };

    fn wide(self) -> u64
        ensures { result ≡ number self };

    // The low bits of a number.
    fn low(n: u64) -> Self
        ensures { number result ≡ n % 2 ^ bits };

    fn new_zst(repr_align: Self) -> Result<DstLayout<Self>, Refusal>
        ensures { says layout result ≡ new_zst_for bits (number repr_align) };

    fn check(own: DstLayout<Self>) -> Result<(), Refusal>
        ensures { check_says result ≡ check_for bits (layout own) };

    fn decode(member: &[u8]) -> Result<DstLayout<Self>, Refusal>
        ensures { says layout result ≡ decode_for bits member.now };

    fn extend(
        own: DstLayout<Self>,
        field: DstLayout<Self>,
        repr_packed: Self,
    ) -> Result<DstLayout<Self>, Refusal>
        ensures { says layout result ≡ extend_for bits (layout own) (layout field) (number repr_packed) };

    fn pad_to_align(own: DstLayout<Self>) -> Result<DstLayout<Self>, Refusal>
        ensures { says layout result ≡ pad_for bits (layout own) };

    // A number goes into 64 bits, in which the loop counts.
    ghost is_within: { bits ≤ 64 };

    // The laws: the modifier, the alignment and the end of a layout are those of its fields; numbers of a slice go one by one.
    ghost marked: { (l : DstLayout Self) → (layout l).modifier ≡ l.align_modifier };

    ghost aligned: { (l : DstLayout Self) → (layout l).align ≡ number l.align };

    ghost ends: { (l : DstLayout Self) → end_of (layout l).info ≡ number (end_in l.size_info) };

    ghost numbers_length: { (ns : List Self) → length (numbers ns) ≡ length ns };

    ghost numbers_set: { (ns : List Self) (i : ℕ) (n : Self) → numbers (set ns i n) ≡ set (numbers ns) i (number n) };
}

impl Steps for u64 {
    ghost bits = { 64 };

    ghost number = { λ n. n };

    ghost layout = { layout_of };

    ghost numbers = { λ ns. ns };

    fn wide(self) -> u64 {
        self
    }

    fn low(n: u64) -> u64 {
        n
    }

    fn new_zst(repr_align: u64) -> Result<DstLayout<u64>, Refusal> {
        make::new_zst(repr_align)
    }

    fn check(own: DstLayout<u64>) -> Result<(), Refusal>
        ensures { check_says result ≡ check_for 64 (layout_of own) }
    {
        own.check()
    }

    fn decode(member: &[u8]) -> Result<DstLayout<u64>, Refusal> {
        record::decode(member)
    }

    fn extend(
        own: DstLayout<u64>,
        field: DstLayout<u64>,
        repr_packed: u64,
    ) -> Result<DstLayout<u64>, Refusal>
        ensures { layout_says result ≡ extend_for 64 (layout_of own) (layout_of field) repr_packed }
    {
        extend::extend(own, field, repr_packed)
    }

    fn pad_to_align(own: DstLayout<u64>) -> Result<DstLayout<u64>, Refusal>
        ensures { layout_says result ≡ pad_for 64 (layout_of own) }
    {
        padding::pad_to_align(own)
    }

    ghost is_within = { Prim.search rules };

    ghost marked = { λ l. refl };

    ghost aligned = { λ l. refl };

    ghost ends = { λ l. ended l.size_info };

    ghost numbers_length = { λ ns. refl };

    ghost numbers_set = { λ ns i n. refl };
}

impl Steps for u32 {
    ghost bits = { 32 };

    ghost number = { λ n. n };

    ghost layout = { layout_of };

    ghost numbers = { λ ns. ns };

    fn wide(self) -> u64 {
        self as u64
    }

    fn low(n: u64) -> u32 {
        numbers32::low_word(n)
    }

    fn new_zst(repr_align: u32) -> Result<DstLayout<u32>, Refusal> {
        layouts32::new_zst(repr_align)
    }

    fn check(own: DstLayout<u32>) -> Result<(), Refusal>
        ensures { check_says result ≡ check_for 32 (layout_of own) }
    {
        layouts32::check(own)
    }

    fn decode(member: &[u8]) -> Result<DstLayout<u32>, Refusal> {
        record32::decode(member)
    }

    fn extend(
        own: DstLayout<u32>,
        field: DstLayout<u32>,
        repr_packed: u32,
    ) -> Result<DstLayout<u32>, Refusal>
        ensures { layout_says result ≡ extend_for 32 (layout_of own) (layout_of field) repr_packed }
    {
        steps32::extend(own, field, repr_packed)
    }

    fn pad_to_align(own: DstLayout<u32>) -> Result<DstLayout<u32>, Refusal>
        ensures { layout_says result ≡ pad_for 32 (layout_of own) }
    {
        steps32::pad_to_align(own)
    }

    ghost is_within = { Prim.search rules };

    ghost marked = { λ l. refl };

    ghost aligned = { λ l. refl };

    ghost ends = { λ l. ended l.size_info };

    ghost numbers_length = { λ ns. refl };

    ghost numbers_set = { λ ns i n. refl };
}
