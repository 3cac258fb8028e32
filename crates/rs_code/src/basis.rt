//! What each given row counts for in another row of the codeword.

ghost use Rattle.std.specs.Prelude.{◌≡◌, ◌≢◌, ℕ, ◌<◌, bit_xor, length, slice_index, IfOk};
ghost use Rattle.rs_code.specs.Codeword.{ArePoints};
ghost use Rattle.rs_code.specs.Coefficients.{weight, distance, AreWeights, AreCoefficients};
ghost use Rattle.rs_code.specs.Coefficients.{AreInverses};
ghost use Rattle.rs_code.specs.Field.{times, inverse};

use crate::gf16;
use crate::lanes::{Eight, differences, next_eight, products, put_eight};
use std::alloc::{AllocError, Global};
use std::marker::Model;

/// Points of the field, no two of which are equal, each with its weight.
///
/// The weight of a point is 1 over the product of its differences to the others. The weights, and
/// the inverses of the first elements of the field, are made once and serve for all targets.
#[derive(Drop)]
pub struct Basis {
    points: Vec<u16>,
    weights: Vec<u16>,
    inverses: Vec<u16>,
}

impl Model for Basis {
    ghost use Rattle.std.specs.Prelude.{ℕ, List, length, slice_index};
    ghost use Rattle.rs_code.specs.Codeword.{ArePoints};
    ghost use Rattle.rs_code.specs.Coefficients.{AreWeights, AreInverses};

    ghost Value = { List ℕ };

    ghost view = { λ b. b.points.items };

    ghost invariant = { λ b.
        ArePoints (length b.points.items) (λ s. slice_index b.points.items s)
        × AreWeights b.points.items b.weights.items
        × AreInverses b.inverses.items };
}

impl Basis {
    /// The basis of these points, for targets below `total`: the difference of a target and a point
    /// is then below the next power of two.
    pub fn new(alloc: Global, points: Vec<u16>, total: u32) -> Result<Basis, AllocError>
        requires { ArePoints (length points.items) (λ s. slice_index points.items s) }
        ensures { IfOk result (λ b. b ≡ points.items) }
    {
        let weights = weights_of(alloc, &points)?;
        let inverses = inverses_below(alloc, total.min(65536).next_power_of_two())?;
        Ok(Basis {
            points,
            weights,
            inverses,
        })
    }

    /// The points.
    pub fn points(&self) -> &[u16]
        ensures { result.now ≡ self.now }
    {
        &self.points
    }

    /// What the row at each point counts for in the rows at eight targets, one in a lane.
    ///
    /// Away from the points that is the distance of the target times the point's weight over their
    /// difference. At one of the points its row alone counts, once.
    pub fn coefficients(&self, alloc: Global, targets: &Eight) -> Result<Vec<Eight>, AllocError>
        ensures { IfOk result (λ v. AreCoefficients self.now targets.now v.items) }
    {
        let values = coefficients_of(alloc, &self.points, &self.weights, &self.inverses, targets)?;
        Ok(values)
    }
}

// The weights of these points, of eight at a time.
fn weights_of(alloc: Global, points: &[u16]) -> Result<Vec<u16>, AllocError>
    requires { ArePoints (length points.now) (λ u. slice_index points.now u) }
    ensures { IfOk result (λ v. AreWeights points.now v.items) }
{
    let mut weights = vec![in alloc; 0u16; points.len()]?;
    for group in 0..points.len().div_ceil(8) {
        let own = weights_at(points, &next_eight(points, 8 * group));
        put_eight(&mut weights, 8 * group, &own);
    }
    Ok(weights)
}

// The weights of eight points: 1 over the product of the differences to the other points.
fn weights_at(points: &[u16], xs: &Eight) -> Eight
    requires { ArePoints (length points.now) (λ u. slice_index points.now u) }
    ensures { (l s : ℕ) → l < 8 → s < length points.now
        → slice_index xs.now l ≡ slice_index points.now s →
        slice_index result l ≡ weight (length points.now) (λ u. slice_index points.now u) s }
{
    let mut product = [1u16; 8];
    for point in points {
        let others = one_where_equal(xs, *point, &differences(xs, *point));
        product = products(&product, &others);
    }
    inverses(&product)
}

// The inverse in each lane, and 0 at 0.
fn inverses(xs: &Eight) -> Eight
    ensures { (l : ℕ) → l < 8 → slice_index xs.now l ≢ 0
        → slice_index result l ≡ inverse (slice_index xs.now l) }
{
    [
        inverse_or_zero(xs[0]),
        inverse_or_zero(xs[1]),
        inverse_or_zero(xs[2]),
        inverse_or_zero(xs[3]),
        inverse_or_zero(xs[4]),
        inverse_or_zero(xs[5]),
        inverse_or_zero(xs[6]),
        inverse_or_zero(xs[7]),
    ]
}

// The inverses of the first elements, and 0 at 0.
fn inverses_below(alloc: Global, count: u32) -> Result<Vec<u16>, AllocError>
    ensures { IfOk result (λ v. AreInverses v.items) }
{
    let mut inverses = Vec::new(alloc);
    for element in 0..count.min(65536) {
        inverses.push(inverse_or_zero(element as u16))?;
    }
    Ok(inverses)
}

// The inverse of an element, and 0 at 0.
fn inverse_or_zero(element: u16) -> u16
    ensures { element ≢ 0 → result ≡ inverse element }
{
    if element == 0 { 0 } else { gf16::inv(element) }
}

// The inverse of an element other than 0, from a list of some where it is there.
fn inverse_of(inverses: &[u16], element: u16) -> u16
    requires { AreInverses inverses.now }
    ensures { element ≢ 0 → result ≡ inverse element }
{
    if usize::from(element) < inverses.len() {
        inverses[usize::from(element)]
    } else {
        inverse_or_zero(element)
    }
}

// The product of each lane's differences to all points.
fn distances_of(points: &[u16], xs: &Eight) -> Eight
    ensures { (l : ℕ) → l < 8
        → slice_index result l ≡ distance (length points.now) (λ u. slice_index points.now u)
        (slice_index xs.now l) }
{
    let mut product = [1u16; 8];
    for point in points {
        product = products(&product, &differences(xs, *point));
    }
    product
}

/// The product of each target's differences to all points.
pub fn distances_at(alloc: Global, points: &[u16], targets: &[u16]) -> Result<Vec<u16>, AllocError>
    ensures count { IfOk result (λ v. length v.items ≡ length targets.now) }
    ensures each { IfOk result (λ v. (i : ℕ) → i < length targets.now → slice_index v.items i
        ≡ distance (length points.now) (λ u. slice_index points.now u)
        (slice_index targets.now i)) }
{
    let mut distances = vec![in alloc; 0u16; targets.len()]?;
    for group in 0..targets.len().div_ceil(8) {
        let own = distances_of(points, &next_eight(targets, 8 * group));
        put_eight(&mut distances, 8 * group, &own);
    }
    Ok(distances)
}

/// 1 over the product of each target's differences to all points, where it is none of them.
pub fn inverses_at(alloc: Global, points: &[u16], targets: &[u16]) -> Result<Vec<u16>, AllocError>
    ensures count { IfOk result (λ v. length v.items ≡ length targets.now) }
    ensures each { IfOk result (λ v. (i : ℕ) → i < length targets.now
        → distance (length points.now) (λ u. slice_index points.now u) (slice_index targets.now i)
        ≢ 0 → slice_index v.items i ≡ inverse (distance (length points.now)
        (λ u. slice_index points.now u) (slice_index targets.now i))) }
{
    let distances = distances_at(alloc, points, targets)?;
    let mut inverses = Vec::new(alloc);
    for i in 0..distances.len() {
        inverses.push(inverse_or_zero(distances[i]))?;
    }
    Ok(inverses)
}

// What the row at each point counts for in each lane.
fn coefficients_of(
    alloc: Global,
    points: &[u16],
    weights: &[u16],
    inverses: &[u16],
    xs: &Eight,
) -> Result<Vec<Eight>, AllocError>
    requires points { ArePoints (length points.now) (λ u. slice_index points.now u) }
    requires weights { AreWeights points.now weights.now }
    requires inverses { AreInverses inverses.now }
    ensures { IfOk result (λ v. AreCoefficients points.now xs.now v.items) }
{
    let distances = distances_of(points, xs);
    let mut values = Vec::with_capacity(alloc, points.len())?;
    for s in 0..points.len() {
        values.push(coefficients_at(inverses, points[s], weights[s], &distances, xs))?;
    }
    Ok(values)
}

// What the row at one point counts for in each lane.
fn coefficients_at(
    inverses: &[u16],
    point: u16,
    weight: u16,
    distances: &Eight,
    xs: &Eight,
) -> Eight
    requires { AreInverses inverses.now }
    ensures here { (l : ℕ) → l < 8 → slice_index xs.now l ≡ point → slice_index result l ≡ 1 }
    ensures away { (l : ℕ) → l < 8 → slice_index xs.now l ≢ point →
        slice_index result l ≡ times (slice_index distances.now l)
        (times weight (inverse (bit_xor (slice_index xs.now l) point))) }
{
    let inverted = inverses_of(inverses, &differences(xs, point));
    let weighed = products(&[weight; 8], &inverted);
    let values = products(distances, &weighed);
    one_where_equal(xs, point, &values)
}

// The inverse in each lane.
fn inverses_of(inverses: &[u16], xs: &Eight) -> Eight
    requires { AreInverses inverses.now }
    ensures { (l : ℕ) → l < 8 → slice_index xs.now l ≢ 0
        → slice_index result l ≡ inverse (slice_index xs.now l) }
{
    [
        inverse_of(inverses, xs[0]),
        inverse_of(inverses, xs[1]),
        inverse_of(inverses, xs[2]),
        inverse_of(inverses, xs[3]),
        inverse_of(inverses, xs[4]),
        inverse_of(inverses, xs[5]),
        inverse_of(inverses, xs[6]),
        inverse_of(inverses, xs[7]),
    ]
}

// 1 in the lanes of this element, and the values in the others.
fn one_where_equal(xs: &Eight, element: u16, values: &Eight) -> Eight
    ensures here { (l : ℕ) → l < 8 → slice_index xs.now l ≡ element → slice_index result l ≡ 1 }
    ensures away { (l : ℕ) → l < 8 → slice_index xs.now l ≢ element
        → slice_index result l ≡ slice_index values.now l }
{
    [
        one_if_equal(xs[0], element, values[0]),
        one_if_equal(xs[1], element, values[1]),
        one_if_equal(xs[2], element, values[2]),
        one_if_equal(xs[3], element, values[3]),
        one_if_equal(xs[4], element, values[4]),
        one_if_equal(xs[5], element, values[5]),
        one_if_equal(xs[6], element, values[6]),
        one_if_equal(xs[7], element, values[7]),
    ]
}

// 1 where two elements are equal, and else the value.
fn one_if_equal(x: u16, element: u16, value: u16) -> u16
    ensures here { x ≡ element → result ≡ 1 }
    ensures away { x ≢ element → result ≡ value }
{
    if x == element { 1 } else { value }
}
