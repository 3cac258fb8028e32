//! Runs of blocks that travel whole, under SHA-256: scripts, and the texts of an independent
//! program.

/// Runs of four members, and scripts that aren't run.
pub(crate) const WHOLE: &str = "== 0 a certificate of a block that came whole
cluster 4 3
propose 1 6869
deliver 0 0
deliver 1 0
deliver 0 2
deliver 1 2
deliver 3 0
--
open 0
hand 0 0 ff354cf9c98f186dee4cd1958ac80f9137f10971067bd2da8dedd6176d591ba7
open 1
hand 1 0 ff354cf9c98f186dee4cd1958ac80f9137f10971067bd2da8dedd6176d591ba7
open 2
hand 2 0 ff354cf9c98f186dee4cd1958ac80f9137f10971067bd2da8dedd6176d591ba7
open 3
hand 3 0 ff354cf9c98f186dee4cd1958ac80f9137f10971067bd2da8dedd6176d591ba7
step 2
sent 0 1 all block 1 e990b7342663f511d2d16beadb969bc5329d8d40a5a00a574d22da2522418e5a
sent 1 1 all vote 1 notarize 1 bc7eaee5879541fb758b68a851ba8fdf8249fb473b2e2390038b2531f76d5f2b
step 3
step 4
sent 2 0 all vote 0 notarize 1 e5bcab3d308acf956b45fa52f86cf786f51126946559a0f12ec724f1d4ffc94f
step 5
step 6
sent 3 2 all vote 2 notarize 1 b96624a2ac22a048f8ef50d67073950b42c4e3291642ad89fc7a26e5d55b8a25
step 7
sent 4 0 all cert notarize 1 3 24c51c6e47f311656613e05503050dd57ff8afdfa3e105d4ab29aab4ed2ef9c1
sent 5 0 all vote 0 finalize 1 d929b89e0f32f8cdc96a51b0a6d640bfec12f6f72cc5940b0c077ead15167a51
member 0 live acked none notes 5
member 1 live acked none notes 3
member 2 live acked none notes 2
member 3 live acked none notes 0
chain 0 ff354cf9c98f186dee4cd1958ac80f9137f10971067bd2da8dedd6176d591ba7
done 6
== 0 a block is handed out
cluster 4 3
propose 1 6869
deliver 0 0
deliver 1 0
deliver 0 2
deliver 1 2
deliver 3 0
deliver 4 1
deliver 4 2
deliver 5 2
deliver 7 2
--
open 0
hand 0 0 ff354cf9c98f186dee4cd1958ac80f9137f10971067bd2da8dedd6176d591ba7
open 1
hand 1 0 ff354cf9c98f186dee4cd1958ac80f9137f10971067bd2da8dedd6176d591ba7
open 2
hand 2 0 ff354cf9c98f186dee4cd1958ac80f9137f10971067bd2da8dedd6176d591ba7
open 3
hand 3 0 ff354cf9c98f186dee4cd1958ac80f9137f10971067bd2da8dedd6176d591ba7
step 2
sent 0 1 all block 1 e990b7342663f511d2d16beadb969bc5329d8d40a5a00a574d22da2522418e5a
sent 1 1 all vote 1 notarize 1 bc7eaee5879541fb758b68a851ba8fdf8249fb473b2e2390038b2531f76d5f2b
step 3
step 4
sent 2 0 all vote 0 notarize 1 e5bcab3d308acf956b45fa52f86cf786f51126946559a0f12ec724f1d4ffc94f
step 5
step 6
sent 3 2 all vote 2 notarize 1 b96624a2ac22a048f8ef50d67073950b42c4e3291642ad89fc7a26e5d55b8a25
step 7
sent 4 0 all cert notarize 1 3 24c51c6e47f311656613e05503050dd57ff8afdfa3e105d4ab29aab4ed2ef9c1
sent 5 0 all vote 0 finalize 1 d929b89e0f32f8cdc96a51b0a6d640bfec12f6f72cc5940b0c077ead15167a51
step 8
sent 6 1 all cert notarize 1 3 24c51c6e47f311656613e05503050dd57ff8afdfa3e105d4ab29aab4ed2ef9c1
sent 7 1 all vote 1 finalize 1 18466ace3ecfc4587188186aa388447955c4bff8ddf390ee30c9b871a866f4ac
step 9
sent 8 2 all cert notarize 1 3 24c51c6e47f311656613e05503050dd57ff8afdfa3e105d4ab29aab4ed2ef9c1
sent 9 2 all vote 2 finalize 1 0995b378837a6923c027d30bfa4f70b088267b7df3010b9726b51715fddde4d8
step 10
step 11
sent 10 2 all cert finalize 1 3 6378e7a7197e38d0c50f47837908ed06f5b1fc4f285786f7e9c01402c112a1e1
hand 2 1 f546062ba1da8aceae130abaff68bdbc95b4fcba69daa66cfdac14f44bac836c
member 0 live acked none notes 5
member 1 live acked none notes 6
member 2 live acked none notes 6
member 3 live acked none notes 0
chain 0 ff354cf9c98f186dee4cd1958ac80f9137f10971067bd2da8dedd6176d591ba7
chain 1 f546062ba1da8aceae130abaff68bdbc95b4fcba69daa66cfdac14f44bac836c
done 10
== 0 the last step is lost, and the one before it sends again
cluster 4 3
propose 1 6869
deliver 0 0
deliver 1 0
deliver 0 2
deliver 1 2
deliver 3 0
deliver 4 1
deliver 4 2
deliver 5 2
cut 3 0 0 deliver 7 2
restart 2
--
open 0
hand 0 0 ff354cf9c98f186dee4cd1958ac80f9137f10971067bd2da8dedd6176d591ba7
open 1
hand 1 0 ff354cf9c98f186dee4cd1958ac80f9137f10971067bd2da8dedd6176d591ba7
open 2
hand 2 0 ff354cf9c98f186dee4cd1958ac80f9137f10971067bd2da8dedd6176d591ba7
open 3
hand 3 0 ff354cf9c98f186dee4cd1958ac80f9137f10971067bd2da8dedd6176d591ba7
step 2
sent 0 1 all block 1 e990b7342663f511d2d16beadb969bc5329d8d40a5a00a574d22da2522418e5a
sent 1 1 all vote 1 notarize 1 bc7eaee5879541fb758b68a851ba8fdf8249fb473b2e2390038b2531f76d5f2b
step 3
step 4
sent 2 0 all vote 0 notarize 1 e5bcab3d308acf956b45fa52f86cf786f51126946559a0f12ec724f1d4ffc94f
step 5
step 6
sent 3 2 all vote 2 notarize 1 b96624a2ac22a048f8ef50d67073950b42c4e3291642ad89fc7a26e5d55b8a25
step 7
sent 4 0 all cert notarize 1 3 24c51c6e47f311656613e05503050dd57ff8afdfa3e105d4ab29aab4ed2ef9c1
sent 5 0 all vote 0 finalize 1 d929b89e0f32f8cdc96a51b0a6d640bfec12f6f72cc5940b0c077ead15167a51
step 8
sent 6 1 all cert notarize 1 3 24c51c6e47f311656613e05503050dd57ff8afdfa3e105d4ab29aab4ed2ef9c1
sent 7 1 all vote 1 finalize 1 18466ace3ecfc4587188186aa388447955c4bff8ddf390ee30c9b871a866f4ac
step 9
sent 8 2 all cert notarize 1 3 24c51c6e47f311656613e05503050dd57ff8afdfa3e105d4ab29aab4ed2ef9c1
sent 9 2 all vote 2 finalize 1 0995b378837a6923c027d30bfa4f70b088267b7df3010b9726b51715fddde4d8
step 10
step 11
step 12
found 5
sent 10 2 all cert notarize 1 3 24c51c6e47f311656613e05503050dd57ff8afdfa3e105d4ab29aab4ed2ef9c1
sent 11 2 all vote 2 finalize 1 0995b378837a6923c027d30bfa4f70b088267b7df3010b9726b51715fddde4d8
hand 2 0 ff354cf9c98f186dee4cd1958ac80f9137f10971067bd2da8dedd6176d591ba7
member 0 live acked none notes 5
member 1 live acked none notes 6
member 2 live acked none notes 5
member 3 live acked none notes 0
chain 0 ff354cf9c98f186dee4cd1958ac80f9137f10971067bd2da8dedd6176d591ba7
done 11
== 0 a faulty member sends its block to all
cluster 4 3
faulty 1 offer 1 6869
deliver 0 0
deliver 1 0
deliver 0 2
deliver 1 2
deliver 0 3
deliver 1 3
deliver 2 0
deliver 3 0
--
open 0
hand 0 0 ff354cf9c98f186dee4cd1958ac80f9137f10971067bd2da8dedd6176d591ba7
open 2
hand 2 0 ff354cf9c98f186dee4cd1958ac80f9137f10971067bd2da8dedd6176d591ba7
open 3
hand 3 0 ff354cf9c98f186dee4cd1958ac80f9137f10971067bd2da8dedd6176d591ba7
step 2
sent 0 1 all block 1 e990b7342663f511d2d16beadb969bc5329d8d40a5a00a574d22da2522418e5a
sent 1 1 all vote 1 notarize 1 bc7eaee5879541fb758b68a851ba8fdf8249fb473b2e2390038b2531f76d5f2b
step 3
step 4
sent 2 0 all vote 0 notarize 1 e5bcab3d308acf956b45fa52f86cf786f51126946559a0f12ec724f1d4ffc94f
step 5
step 6
sent 3 2 all vote 2 notarize 1 b96624a2ac22a048f8ef50d67073950b42c4e3291642ad89fc7a26e5d55b8a25
step 7
step 8
sent 4 3 all vote 3 notarize 1 3698f32a0d7a87cc5fa4af69237e6b49deb9ada4b839ef0cb916bfc6bef6dc2a
step 9
step 10
sent 5 0 all cert notarize 1 3 24c51c6e47f311656613e05503050dd57ff8afdfa3e105d4ab29aab4ed2ef9c1
sent 6 0 all vote 0 finalize 1 d929b89e0f32f8cdc96a51b0a6d640bfec12f6f72cc5940b0c077ead15167a51
member 0 live acked none notes 5
member 2 live acked none notes 2
member 3 live acked none notes 2
chain 0 ff354cf9c98f186dee4cd1958ac80f9137f10971067bd2da8dedd6176d591ba7
done 9
== 0 who never saw a payload owes no vote for it
cluster 4 3
propose 1 6869
deliver 1 0
deliver 1 2
deliver 0 0
--
open 0
hand 0 0 ff354cf9c98f186dee4cd1958ac80f9137f10971067bd2da8dedd6176d591ba7
open 1
hand 1 0 ff354cf9c98f186dee4cd1958ac80f9137f10971067bd2da8dedd6176d591ba7
open 2
hand 2 0 ff354cf9c98f186dee4cd1958ac80f9137f10971067bd2da8dedd6176d591ba7
open 3
hand 3 0 ff354cf9c98f186dee4cd1958ac80f9137f10971067bd2da8dedd6176d591ba7
step 2
sent 0 1 all block 1 e990b7342663f511d2d16beadb969bc5329d8d40a5a00a574d22da2522418e5a
sent 1 1 all vote 1 notarize 1 bc7eaee5879541fb758b68a851ba8fdf8249fb473b2e2390038b2531f76d5f2b
step 3
step 4
step 5
sent 2 0 all vote 0 notarize 1 e5bcab3d308acf956b45fa52f86cf786f51126946559a0f12ec724f1d4ffc94f
member 0 live acked none notes 2
member 1 live acked none notes 3
member 2 live acked none notes 0
member 3 live acked none notes 0
chain 0 ff354cf9c98f186dee4cd1958ac80f9137f10971067bd2da8dedd6176d591ba7
done 4
== 3 an epoch is outside the grammar
epochs 4 3 1 1
members 0 1 2 3
--
error 1 Syntax 1
== 3 so is a lane
cluster 4 3
lane
--
error 1 Syntax 2
== 3 a committee of three
cluster 3 1
--
error 2 BadCommittee
";
