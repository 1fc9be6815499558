//! The texts of samples.
use sample_lines::sample;
use std::test::Fail;

#[test]
fn the_first_sample_begins_so(rt: HostRuntime) -> Result<(), Fail> {
    let files = sample(rt.alloc(), 1)?;
    let line = files.line.as_slice();
    let limits = b"kind,from,to,value\nlimit,0,1000,117\nlimit,1000,2000,63\n".as_slice();
    assert!(rt; line.starts_with(limits));
    let gradients = b"\ngradient,0,1000,22\ngradient,1000,2000,-37\n".as_slice();
    assert!(rt; line.windows(gradients.len()).any(|rows| rows == gradients));
    Ok(())
}

#[test]
fn the_train_and_the_service_are_always_the_same(rt: HostRuntime) -> Result<(), Fail> {
    let alloc = rt.alloc();
    let one = sample(alloc, 1)?;
    let last = sample(alloc, u32::MAX)?;
    assert!(rt; one.train.as_slice() == last.train.as_slice());
    assert!(rt; one.service.as_slice() == last.service.as_slice());
    assert!(rt; one.line.as_slice() != last.line.as_slice());
    Ok(())
}

#[test]
fn a_number_and_the_number_that_it_is_taken_as_have_one_line(rt: HostRuntime) -> Result<(), Fail> {
    let alloc = rt.alloc();
    let small = sample(alloc, 7)?;
    let large = sample(alloc, 2_147_483_655)?;
    assert!(rt; small.line.as_slice() == large.line.as_slice());
    Ok(())
}
